//! A law on lists, which runs no code.

ghost use Rattle.radio_parts_mount.specs.Grants.{GrantsComeFirst};

/// In a mount's list each block, title and draw comes after the `Attach` of the grant that it names, and before the `Detach`
/// of that grant, if there is one.
pub fn grants_come_first()
    ensures { GrantsComeFirst }
{}
