//! Laws on pulls over a core, which run no code.

ghost use Rattle.radio_floor.specs.Pulls.{CoresAskAsTheirStates, CoresGoDownAsTheirStates, CoresTakeAsTheirStates};
ghost use Rattle.radio_floor.specs.Pulls.{AskingIsOne, GoingDownIsOne, TakingIsOne};

use radio_relay::laws::cuts_do_not_matter;

/// A pull has the same result over a core as from any state that the core represents.
// rule: Pulled stream
pub fn cores_pull_as_their_states()
    ensures takes { CoresTakeAsTheirStates }
    ensures asks { CoresAskAsTheirStates }
    ensures goes { CoresGoDownAsTheirStates }
{}

/// What arrives on a pull has one result, from each state of the server.
// rule: Pulled stream
pub fn pulling_is_one()
    ensures takes { TakingIsOne }
    ensures asks { AskingIsOne }
    ensures goes { GoingDownIsOne }
{
    cuts_do_not_matter();
}
