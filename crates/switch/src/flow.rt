//! What is kept of one flow.
ghost use Rattle.std.specs.Prelude.{◌≡◌};
ghost use Rattle.grid.specs.Flows.{with_flow};
ghost use Rattle.state.specs.State.{ledger_in, bytes_in};

use grid::Flow;
use state::Ledger;
use store::Packet;

// The ledger of a flow.
pub(crate) fn ledger_at(ledgers: &[Ledger; 256], flow: Flow) -> &Ledger
    ensures { result.now ≡ ledger_in ledgers.now flow.input flow.output }
{
    &ledgers[flow.cell()]
}

// Writes the ledger of a flow.
pub(crate) fn set_ledger(ledgers: &mut [Ledger; 256], flow: Flow, ledger: Ledger)
    ensures { ledger_in ledgers.new ≡ with_flow (ledger_in ledgers.old) flow.input flow.output ledger }
{
    ledgers[flow.cell()] = ledger;
}

// The length of a packet, 0 where there is none.
pub(crate) fn bytes_in(packet: Option<Packet>) -> u32
    ensures { result ≡ bytes_in packet }
{
    packet.map_or(0, |p| p.bytes)
}
