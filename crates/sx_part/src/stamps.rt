// Where an image has a key, and under which LSN.
ghost use Rattle.std.specs.Prelude.{◌≡◌, option_map, is_some};
ghost use Rattle.sx_copy.specs.Changes.{takes};
ghost use Rattle.sx_part.specs.Stamping.{stamp_of, takes_stamp};

// The LSN of the key in either table. It is in one of them at most.
#[derive(Clone, Copy)]
pub(crate) struct Stamps {
    pub(crate) passing: Option<u64>,
    pub(crate) failing: Option<u64>,
}

impl Stamps {
    // Whether a row under this LSN is taken: where the image has the key, under a smaller LSN; where it lacks it, as told.
    pub(crate) fn take(&self, lsn: u64, where_absent: bool) -> bool
        ensures { result ≡ takes_stamp lsn where_absent (stamp_of self.now) }
    {
        match self.passing.or(self.failing) {
            Some(known) => known < lsn,
            None => where_absent,
        }
    }
}
