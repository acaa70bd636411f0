//! A whole run file to its listing.
#![tactic(auto)]

ghost use Rattle.carry.specs.Behind.{ListingsFollowLaw};
ghost use Rattle.carry.specs.Examples.{RefusedIsListed, WholeIsListed};
ghost use Rattle.carry.specs.WithoutArrivals.{PlansAreListed};

mod book;
mod lines;
mod peaks;
mod play;
mod run;
mod stop;
mod traffic;

pub use run::carry;

/// The run behind the listing of a file follows the law, and if the file is whole, it comes to its end: each packet that is
/// accepted has one `D` line, the bytes of the `E` line are those of all accepted packets, and the `D` lines stand by tick and
/// then by output.
pub fn listings_stand()
    ensures { ListingsFollowLaw }
{}

/// A file in which nothing arrives is listed as its plan: an `X` line with 0 for each open flow, by input and then by output, and
/// `E 0 0`; or the `R` line of its refusal, which is the reader's, or of a size or a share.
pub fn plan_listings_stand()
    ensures { PlansAreListed }
{}

/// The worked examples hold.
pub fn examples_stand()
    ensures whole { WholeIsListed }
    ensures refused { RefusedIsListed }
{}
