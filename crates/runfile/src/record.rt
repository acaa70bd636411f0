//! Records, still inside the file.
ghost use Rattle.std.specs.Prelude.{◌≡◌, ◌-◌, length, Some, None, Ok, Err, MatchResult};
ghost use Rattle.runfile.specs.File.{Library, Whole};
ghost use Rattle.runfile.specs.Records.{first_record, part_seen, too_long};

use crate::fault::{Fault, ReadFault};

/// A record: its place in the file, and what kind it is of.
#[derive(Clone, Copy)]
pub struct Record<'a> {
    pub place: usize,
    pub kind: Kind<'a>,
}

/// The kind of a record, and its body as a part of the file.
#[derive(Clone, Copy)]
pub enum Kind<'a> {
    Head(&'a [u8; 7]),
    Share(&'a [u8; 4]),
    Seal,
    Arrival(&'a [u8; 7]),
    End,
}

/// The unread part of a file, and the length of the whole file.
#[derive(Clone, Copy)]
pub struct Rest<'a> {
    pub length: usize,
    pub bytes: &'a [u8],
}

impl<'a> Rest<'a> {
    /// The place of the first unread byte.
    pub fn place(&self) -> usize
        ensures { result ≡ self.now.length - length self.now.bytes.now }
    {
        self.length.saturating_sub(self.bytes.len())
    }
}

/// The whole file unread, or a refusal if it is too long.
#[tactic(auto, using(crate::proofs::Whole::whole_law))]
pub fn open<'a>(file: &'a [u8]) -> Result<Rest<'a>, Fault>
    ensures answers { MatchResult result (λ rest. (too_long file.now ≡ None) × (rest.length ≡ length file.now) × (rest.bytes.now ≡ file.now)) (λ f. too_long file.now ≡ Some f) }
    ensures whole { (library : Library) → Whole library file.now }
{
    if file.len() > 65536 {
        return Err(Fault::at(65536, ReadFault::TooLong));
    }
    Ok(Rest {
        length: file.len(),
        bytes: file,
    })
}

/// The first record of what is left, and what is left behind it.
pub fn read_record<'a>(rest: Rest<'a>) -> Result<(Record<'a>, Rest<'a>), Fault>
    ensures { MatchResult result (λ v. (first_record rest.entry.length rest.entry.bytes.now ≡ Ok (part_seen v.0 v.1)) × (v.1.length ≡ rest.entry.length)) (λ f. first_record rest.entry.length rest.entry.bytes.now ≡ Err f) }
{
    let length = rest.length;
    let place = rest.place();
    let cut = Fault::at(length, ReadFault::CutShort);
    let (number, more) = rest.bytes.split_first().ok_or(cut)?;
    // no enum of the numbers alone: each picks the length of its body too, so it would be matched twice
    let (kind, bytes) = match *number {
        1 => {
            let (body, bytes) = more.split_first_chunk().ok_or(cut)?;
            (Kind::Head(body), bytes)
        }
        2 => {
            let (body, bytes) = more.split_first_chunk().ok_or(cut)?;
            (Kind::Share(body), bytes)
        }
        3 => (Kind::Seal, more),
        4 => {
            let (body, bytes) = more.split_first_chunk().ok_or(cut)?;
            (Kind::Arrival(body), bytes)
        }
        5 => (Kind::End, more),
        _ => return Err(Fault::at(place, ReadFault::UnknownKind)),
    };
    Ok((Record { place, kind }, Rest { length, bytes }))
}
