//! With what a draft ends.

ghost use Rattle.std.specs.Prelude.{◌≡◌};
ghost use Rattle.service_watch.specs.Requests.{draft_life_name};

/// With what a draft ends.
#[derive(Clone, Copy, Debug, PartialEq, Eq)]
pub enum DraftLife {
    /// With its publication alone.
    Publication,
    /// With its publication, or with the last session that edited it.
    Session,
}

impl DraftLife {
    /// The word that names it, on command lines and at `/health`.
    #[tactic(auto, unfolding(crate::specs::Requests::draft_life_name))]
    pub fn name(self) -> &'static str
        ensures { result.now ≡ draft_life_name self }
    {
        match self {
            DraftLife::Publication => "publication",
            DraftLife::Session => "session",
        }
    }
}
