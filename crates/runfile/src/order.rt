//! The records of a file in their order: head, shares, seal, arrivals, end.
ghost use Rattle.runfile.specs.Order.{Opening, Booking, Running, head};
ghost use Rattle.runfile.specs.Seen.{ReadsNext, booking_item, traffic_item, traffic_length};

use crate::body::{Arrival, Head, Share};
use crate::fault::{Fault, ReadFault};
use crate::record::{Kind, Rest, read_record};

/// The head, which comes first.
pub fn read_head<'a>(rest: Rest<'a>) -> Result<(Head, Rest<'a>), Fault>
    ensures { ReadsNext Opening rest.entry (λ v. (head v.0, v.1.bytes.now)) (λ v. v.1.length) result }
{
    let (record, left) = read_record(rest)?;
    let Kind::Head(body) = record.kind else {
        return Err(Fault::at(record.place, ReadFault::OutOfOrder));
    };
    let head = Head::try_from(*body).map_err(|fault| Fault::at(record.place, fault))?;
    Ok((head, left))
}

/// A share, or `None` at the seal, which ends the shares; and what is left behind it.
pub fn read_booking<'a>(rest: Rest<'a>) -> Result<(Option<Share>, Rest<'a>), Fault>
    ensures { ReadsNext Booking rest.entry (λ v. (booking_item v.0, v.1.bytes.now)) (λ v. v.1.length) result }
{
    let (record, left) = read_record(rest)?;
    match record.kind {
        Kind::Share(body) => Ok((Some(Share::from(*body)), left)),
        Kind::Seal => Ok((None, left)),
        _ => Err(Fault::at(record.place, ReadFault::OutOfOrder)),
    }
}

/// An arrival not before the clock and what is left behind it, or `None` at the end, behind which nothing may stand.
pub fn read_traffic<'a>(rest: Rest<'a>, clock: u32) -> Result<Option<(Arrival, Rest<'a>)>, Fault>
    ensures { ReadsNext (Running clock) rest.entry traffic_item (λ t. traffic_length t rest.entry.length) result }
{
    let (record, left) = read_record(rest)?;
    match record.kind {
        Kind::Arrival(body) => {
            let arrival = Arrival::from(*body);
            if arrival.tick < clock {
                return Err(Fault::at(record.place, ReadFault::EarlyTick));
            }
            Ok(Some((arrival, left)))
        }
        Kind::End if left.bytes.is_empty() => Ok(None),
        Kind::End => Err(Fault::at(left.place(), ReadFault::AfterEnd)),
        _ => Err(Fault::at(record.place, ReadFault::OutOfOrder)),
    }
}
