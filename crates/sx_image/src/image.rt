// One image for each transformation.
ghost use Rattle.std.specs.Prelude.{◌≡◌, ◌≤◌, [], OnOk, OnErr, IfOk, IsErr};
ghost use Rattle.sx_ops.specs.Checks.{IsShaped, spec_fault};
ghost use Rattle.sx_image.specs.Images.{StandsFor, IsDead, Populates, Applies, AreTablesOf, FitsScan, FitsRecord, CanFollow, Follows, no_copy, position_in};

use std::alloc::{AllocError, Global};
use std::marker::Model;
use std::sync::ledger::Ledger;
use sx_heap::{Seens, Tables};
use sx_log::Rec;
use sx_ops::Spec;
use sx_part::PartImage;
use sx_steps::Steps;
use sx_values::Catalog;

/// The rows of a transformation over a copy of its sources, with the place in the log up to which the copy has come. It lives
/// until `populate` or `apply` finds no memory.
#[derive(Drop)]
pub struct Image {
    kind: Kind,
}

// The image of each operator.
#[derive(Drop)]
enum Kind {
    Dead,
    Part(PartImage),
}

impl Model for Image {
    ghost use Rattle.sx_image.specs.declared.image.Kind.{Kind};

    ghost Value = { Kind };

    ghost view = { λ i. i.kind };
}

impl Image {
    /// The image of an empty copy, at the position of the mark.
    pub fn new(
        alloc: Global,
        catalog: &Catalog,
        spec: &Spec,
        mark: u64,
    ) -> Result<Image, AllocError>
        requires shaped { IsShaped spec.now }
        requires fits { spec_fault catalog.now spec.now ≡ None }
        ensures { IfOk result (StandsFor catalog.now spec.now no_copy mark) }
    {
        match spec {
            Spec::Part { .. } => Ok(Image {
                kind: Kind::Part(PartImage::new(alloc, catalog, spec, mark)?),
            }),
            Spec::Join { .. } | Spec::Split { .. } | Spec::Union { .. } => unreachable!(),
        }
    }

    /// An image that has found no memory.
    pub fn dead() -> Image
        ensures { IsDead result }
    {
        Image { kind: Kind::Dead }
    }

    /// The place in the log up to which the copy has come; 0 of a dead image.
    pub fn position(&self) -> u64
        ensures { result ≡ position_in self.now }
    {
        match &self.kind {
            Kind::Dead => 0,
            Kind::Part(image) => image.position(),
        }
    }

    /// Merges the readings of a scan turn of a side, each where the copy lacks the key or has it under a smaller LSN. The
    /// position stays.
    ///
    /// After want of memory the image is dead, and a dead one finds none.
    pub fn populate(&mut self, side: u8, seen: &Seens) -> Result<(), AllocError>
        requires fits { FitsScan side seen.now self.old }
        ensures ok { OnOk result (Populates side seen.now self.old self.new) }
        ensures err { OnErr result (IsDead self.new) }
        ensures dead { IsDead self.old → IsErr result }
    {
        match &mut self.kind {
            Kind::Dead => Err(AllocError),
            Kind::Part(image) => image.populate(side, seen),
        }
    }

    /// Takes in the next record of the log: on a source it sets the row of its key, where the copy lacks the key and the record
    /// has no image before, or has it under a smaller LSN. The position is then its place. A row looked at is a step.
    ///
    /// After want of memory the image is dead, and a dead one finds none.
    #[tactic(auto, unfolding(sx_log::specs::Copies::copied_on))]
    pub fn apply<L: Ledger>(
        &mut self,
        place: u64,
        rec: &Rec,
        steps: &mut Steps<L>,
    ) -> Result<(), AllocError>
        requires fits { FitsRecord place rec.now.body self.old }
        ensures ok { OnOk result (Applies place rec.now.body self.old self.new) }
        ensures err { OnErr result (IsDead self.new) }
        ensures dead { IsDead self.old → IsErr result }
        ensures kept { steps.old ≤ steps.new }
    {
        match &mut self.kind {
            Kind::Dead => Err(AllocError),
            Kind::Part(image) => image.apply(place, rec, steps),
        }
    }

    /// Takes in the next records of the log, in order; the last one stands at the place `end`.
    ///
    /// After want of memory the image is dead.
    #[tactic(auto, using(crate::proofs::FollowLemmas::first_fits, crate::proofs::FollowLemmas::rest_follows, crate::proofs::FollowLemmas::both_follow, crate::proofs::FollowLemmas::none_follow))]
    pub fn follow<L: Ledger>(
        &mut self,
        recs: &[Rec],
        end: u64,
        steps: &mut Steps<L>,
    ) -> Result<(), AllocError>
        requires next { CanFollow recs.now end self.old }
        ensures ok { OnOk result (Follows recs.now end self.old self.new) }
        ensures err { OnErr result (IsDead self.new) }
        ensures kept { steps.old ≤ steps.new }
    {
        let [first, rest @ ..] = recs else {
            return Ok(());
        };
        self.apply(end - rest.len() as u64, first, steps)?;
        self.follow(rest, end, steps)
    }

    /// The new tables: the transformation of the copy's rows. No record put them there, so each has LSN 0.
    pub fn into_tables(self) -> Result<Tables, AllocError>
        ensures ok { IfOk result (AreTablesOf self) }
        ensures dead { IsDead self → IsErr result }
    {
        match self.kind {
            Kind::Dead => Err(AllocError),
            Kind::Part(image) => image.into_tables(),
        }
    }
}
