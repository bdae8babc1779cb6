ghost use Rattle.std.specs.Prelude.{◌≡◌, ◌<◌, ◌+◌, ◌^◌, Some, None};

use history_merge::OpId;
use std::marker::Model;

/// An optional place in half a word, seen as an `Option` of the place.
#[derive(Clone, Copy)]
pub(crate) struct MaybePlace {
    /// One plus the place, or 0 for none.
    above: u32,
}

impl Model for MaybePlace {
    ghost use Rattle.std.specs.Prelude.{ℕ, Option};

    ghost Value = { Option ℕ };

    ghost use Rattle.value_match.specs.Inner.MaybePlaces.{one_above, place_below, above_place};

    ghost view = { λ a. place_below a.above };

    ghost inverse = { λ place. record { above = one_above place } };

    ghost inverse_ok = { λ a h t. record { above = above_place a.above t } };
}

impl MaybePlace {
    /// Returns no place.
    #[inline(always)]
    pub(crate) fn none() -> MaybePlace
        ensures { result ≡ None }
    {
        MaybePlace { above: 0 }
    }

    /// Wraps a place.
    #[inline(always)]
    pub(crate) fn some(place: usize) -> MaybePlace
        requires { place + 1 < 2 ^ 32 }
        ensures { result ≡ Some place }
    {
        MaybePlace {
            above: (place + 1) as u32,
        }
    }

    /// Returns the place, if there is one.
    #[inline(always)]
    pub(crate) fn get(self) -> Option<usize>
        ensures { result ≡ self }
    {
        (self.above as usize).checked_sub(1)
    }

    /// Returns the place as that of an operation, if there is one.
    #[inline(always)]
    pub(crate) fn id(self) -> Option<OpId>
        ensures { result ≡ self }
    {
        match self.above.checked_sub(1) {
            Some(place) => Some(OpId::new(place)),
            None => None,
        }
    }
}
