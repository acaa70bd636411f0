//! The plan that a run file books.
ghost use Rattle.std.specs.Prelude.{◌≡◌, ℕ, ◌-◌, List, [], ◌∷◌, Some, None, MatchResult, OnErr};
ghost use Rattle.std.specs.Option.{option_map};
ghost use Rattle.runfile.specs.Order.{Item, Booking as Open, Running};
ghost use Rattle.runfile.specs.Order as order;
ghost use Rattle.runfile.specs.declared.body.Head as body;
ghost use Rattle.runfile.specs.Records.{fault_at};
ghost use Rattle.carry.specs.Items.{refuses};
ghost use Rattle.carry.specs.Booked.{Books, BooksAt, Refuses};

use plan::{Plan, Size};
use runfile::{Fault, Head, Rest, Share, open, read_booking, read_head};

// An empty plan of the head's size.
fn open_plan(head: Head) -> Result<Plan, Fault>
    ensures { MatchResult result (λ p. (refuses [] (order.head head) ≡ None) × Books (order.head head ∷ []) p) (λ f. option_map (fault_at 0) (refuses [] (order.head head)) ≡ Some f) }
{
    let size = Size::new(
        usize::from(head.ports),
        u32::from(head.longest),
        u32::from(head.parts),
    )
    .map_err(|fault| Fault::at(0, fault))?;
    Ok(Plan::new(size))
}

// Books the share of the record at this place. A refused one leaves the plan as it was.
fn book_share(plan: &mut Plan, place: usize, share: Share) -> Result<(), Fault>
    ensures booked { (is : List Item) → Books is plan.old → MatchResult result (λ _. (refuses is (order.share share) ≡ None) × Books (order.share share ∷ is) plan.new) (λ f. option_map (fault_at place) (refuses is (order.share share)) ≡ Some f) }
    ensures kept { OnErr result (plan.new ≡ plan.old) }
{
    plan.share(
        usize::from(share.input),
        usize::from(share.output),
        u32::from(share.weight),
    )
    .map_err(|fault| Fault::at(place, fault))
}

// Books the shares of a file up to its seal, and answers what is left behind it.
fn book_shares<'a>(plan: &mut Plan, mut rest: Rest<'a>) -> Result<Rest<'a>, Fault>
    ensures { (file : List ℕ) (h : body.Head) → BooksAt Open file h plan.old rest.entry → MatchResult result (λ left. BooksAt (Running 0) file h plan.new left) (λ f. Refuses file f) }
{
    // no while let: what is left behind the seal is needed too
    loop {
        let place = rest.place();
        let (share, left) = read_booking(rest)?;
        let Some(share) = share else {
            return Ok(left);
        };
        book_share(plan, place, share)?;
        rest = left;
    }
}

/// The head of a file, the plan that it books, and what is left behind its seal.
pub fn book<'a>(file: &'a [u8]) -> Result<(Head, Plan, Rest<'a>), Fault>
    ensures { MatchResult result (λ v. BooksAt (Running 0) file.now v.0 v.1 v.2) (λ f. Refuses file.now f) }
{
    let (head, rest) = read_head(open(file)?)?;
    let mut plan = open_plan(head)?;
    let left = book_shares(&mut plan, rest)?;
    Ok((head, plan, left))
}
