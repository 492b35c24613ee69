//! Laws: what the definitions say of every path and query.
//!
//! Each law is a function that does nothing, and its contract is the law.
//! A caller that needs a law in a proof calls the function, and cites its clause.
ghost use Rattle.std.specs.Prelude.{◌≡◌, ◌↔◌, ℕ, List, Option, Some, None, Ok, Err, All, [], codes};
ghost use Rattle.form_urlencoded.specs.Form.{extend_pairs};
ghost use Rattle.radio_admin.specs.declared.command.Command.{Command as CommandOf};
ghost use Rattle.radio_admin.specs.declared.fault.AdminFault.TheVariants.{MissingArgument, NoCommand};
ghost use Rattle.radio_admin.specs.declared.kind.CommandKind.{CommandKind as KindOf};
ghost use Rattle.radio_admin.specs.Arguments.{argument};
ghost use Rattle.radio_admin.specs.Commands.{command_in, kind_in};
ghost use Rattle.radio_admin.specs.Kinds.{kind_of, command_path};
ghost use Rattle.radio_admin.specs.Laws.{AreBytes, AsksFor, LacksAnArgument, NamesNoCommand, first_value};

/// Each command is found by its own path, and by no other.
pub fn paths_name_commands()
    ensures { (path : List ℕ) (kind : KindOf) → (kind_of path ≡ Some kind) ↔ (path ≡ command_path kind) }
{}

/// A path and a query are read as a command exactly if the path is that of its kind and the arguments are there.
/// They are read as `NoCommand` exactly if no kind has the path. They are read as `MissingArgument`, with the mount
/// that was named, exactly if a kind has the path and an argument is missing.
// rule: No command
pub fn commands_are_exact()
    ensures command { (path query : List ℕ) (command : CommandOf) → (command_in path query ≡ Ok command) ↔ AsksFor path query (kind_in command) command }
    ensures no_command { (path query : List ℕ) → (command_in path query ≡ Err NoCommand) ↔ NamesNoCommand path }
    ensures missing { (path query : List ℕ) (kind : KindOf) (mount : Option (List ℕ))
        → (command_in path query ≡ Err (MissingArgument kind mount)) ↔ LacksAnArgument path query kind mount }
{}

/// Of the pairs that a client writes into a form, whatever their bytes, the first of a name is its argument.
// rule: First argument
pub fn first_arguments_count()
    ensures { (pairs : List (List ℕ × List ℕ)) (name : List ℕ) → All AreBytes pairs
        → argument name (extend_pairs [] pairs) ≡ first_value name pairs }
{}
