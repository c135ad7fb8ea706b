ghost use Rattle.std.specs.Prelude.{◌≡◌, count_by};
ghost use Rattle.vt_hub.specs.Views.{is_made, is_out, stand_at};

use crate::opening::Opening;
use crate::pass_place::PassPlace;
use crate::shared::Shared;
use std::marker::Model;
use turn_lock::Pass as Place;
use vt_base::CallerNo;

/// The steward makes passes and joins them. It knows which passes were made, and which are out.
#[derive(Drop)]
pub struct Steward<J: Opening> {
    pub(crate) place: Place<Shared<J>>,
    pub(crate) stands: [PassPlace; 68],
    pub(crate) out: u32,
}

impl<J: Opening> Model for Steward<J> {
    ghost use Rattle.vt_hub.specs.Places.{Keeps, steward_view};
    ghost use Rattle.vt_hub.specs.Views.{StewardView};

    ghost Value = { StewardView };

    ghost view = { λ s. steward_view s.stands s.place };

    ghost invariant = { λ s. Keeps s.stands s.out s.place };
}

impl<J: Opening> Steward<J> {
    /// A pass of this number was made.
    pub fn made(&self, c: CallerNo) -> bool
        ensures { result ≡ is_made (stand_at self.now.stands c) }
    {
        !matches!(self.stands[usize::from(c.get())], PassPlace::Unmade)
    }

    /// The number of passes that are out.
    pub fn out(&self) -> u32
        ensures { result ≡ count_by is_out self.now.stands }
    {
        self.out
    }
}
