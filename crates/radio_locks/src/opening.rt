//! With what a hall was opened.

ghost use Rattle.std.specs.Prelude.{◌≡◌, true, false, is_some, IsOk};
ghost use Rattle.std.specs.Coded.{Coded-set};
ghost use Rattle.std.specs.Option.{ForSome};
ghost use Rattle.radio_parts.specs.contracts.control.Control as the_control;
ghost use Rattle.radio_parts_station.specs.World.{opening};

use crate::OutOfMemory;
use radio_access::Lists;
use radio_book::{Chronicle, Kept, Origin};
use radio_settings_values::Settings;
use std::marker::PhantomData;

/// The settings and the lists with which a hall was opened. It has copies of both if entries are stored, and nothing if none are.
#[derive(Drop)]
pub(crate) struct Opening<C: Chronicle, H: Origin> {
    copies: Option<(Settings, Lists)>,
    of: PhantomData<C>,
    at: PhantomData<H>,
    // both fields are facts: that two states are equal is proved in one way alone
    ghost keeps: { is_some copies ≡ C.KEEPS },
    ghost opens: { ForSome copies (λ pair. H.opening ≡ opening pair.0 pair.1) } by { Prim.hlevel (Coded-set the_control.the_row.coded) },
}

impl<C: Chronicle, H: Origin> Opening<C, H> {
    /// Copies the settings and the lists if entries are stored. `OutOfMemory` if memory was refused; that never comes if none are.
    pub(crate) fn new(settings: &Settings, lists: &Lists) -> Result<Opening<C, H>, OutOfMemory>
        requires opening { H.opening ≡ opening settings.now lists.now }
        ensures frees { C.KEEPS ≡ false → IsOk result }
    {
        if !C::KEEPS {
            return Ok(Opening {
                copies: None,
                of: PhantomData,
                at: PhantomData,
            });
        }
        Ok(Opening {
            copies: Some((settings.clone()?, lists.clone()?)),
            of: PhantomData,
            at: PhantomData,
        })
    }
}

impl<H: Origin> Opening<Kept, H> {
    /// Returns the settings and the lists.
    pub(crate) fn into_pair(self) -> (Settings, Lists)
        ensures { H.opening ≡ opening result.0 result.1 }
    {
        let Opening { copies, .. } = self;
        copies.unwrap()
    }
}
