// An image that follows the log, by a counter that nobody reads.
ghost use Rattle.std.specs.Prelude.{◌≡◌, ◌<◌, OnOk, OnErr};
ghost use Rattle.sx_image.specs.Images.{CanFollow, Follows, IsDead};

use std::alloc::AllocError;
use std::marker::Brand;
use std::sync::ledger::{Blank, Ledger};
use sx_image::Image;
use sx_log::Rec;
use sx_steps::Steps;

// Takes in the next records of the log, in order; the last one stands at the place `end`.
pub(crate) fn follow(image: &mut Image, recs: &[Rec], end: u64) -> Result<(), AllocError>
    requires next { CanFollow recs.now end image.old }
    ensures ok { OnOk result (Follows recs.now end image.old image.new) }
    ensures err { OnErr result (IsDead image.new) }
{
    counted_follow::<Brand>(image, recs, end, Blank::new(1))
}

fn counted_follow<L: Ledger>(
    image: &mut Image,
    recs: &[Rec],
    end: u64,
    blank: Blank,
) -> Result<(), AllocError>
    requires next { CanFollow recs.now end image.old }
    requires name { blank.name ≡ L.name }
    requires parts { blank.parts ≡ L.parts }
    requires some { 0 < blank.parts }
    ensures ok { OnOk result (Follows recs.now end image.old image.new) }
    ensures err { OnErr result (IsDead image.new) }
{
    let mut steps = Steps::<L>::new(blank);
    image.follow(recs, end, &mut steps)
}
