//! Why a report is refused.
ghost use Rattle.std.specs.Prelude.{◌≡◌};
ghost use Rattle.state.specs.Reports.{report_number};
ghost use Rattle.state.specs.declared.fault.ReportFault.TheVariants as report;

use plan::PortFault;

/// Why no report on a flow is given.
#[derive(Clone, Copy, PartialEq, Eq, Debug)]
pub enum ReportFault {
    /// The input or the output is not below N.
    Port = 4,
    /// The bytes accepted are not those that have left and those still stored.
    Unbalanced = 13,
}

impl ReportFault {
    /// The number of the refusal.
    pub fn number(self) -> u8
        ensures { result ≡ report_number self }
    {
        self as u8
    }
}

impl From<PortFault> for ReportFault {
    ghost from_gives = { λ _ f. f ≡ report.Port };

    fn from(fault: PortFault) -> ReportFault {
        match fault {
            PortFault::Port => ReportFault::Port,
        }
    }
}
