// The two kinds of lines.
ghost use Rattle.std.specs.Prelude.{◌≡◌, cond};
ghost use Rattle.rule.specs.Kinds.{back};

// A future line looks ahead from its first position, a past line back from each.
#[derive(Clone, Copy)]
pub(crate) enum Kind {
    Future,
    Past,
}

impl Kind {
    // How many states a line has beside those that its bits number: the start, and for a past line the failed state.
    pub(crate) fn spare_states(self) -> u16
        ensures { result ≡ cond (back self) 2 1 }
    {
        match self {
            Kind::Future => 1,
            Kind::Past => 2,
        }
    }
}
