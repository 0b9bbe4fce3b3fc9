//! Laws over signatures, each the clause of a function that does nothing.
ghost use Rattle.std.specs.Prelude.{◌≡◌, ◌<◌, ◌^◌, length, map};
ghost use Rattle.spelling.specs.Spelling.{list_bytes};
ghost use Rattle.outside.specs.Meaning.{key_bytes, signature_of};
ghost use Rattle.build_keys.specs.Keys.{key_bytes as spelled};
ghost use Rattle.build_manifest.specs.Command.{IsCommand, IsRead, IsTarget};
ghost use Rattle.build_manifest.specs.declared.command.Command.{Command};
ghost use Rattle.build_manifest.specs.declared.command.TargetEntry.{TargetEntry};
ghost use Rattle.build_manifest.specs.declared.command.Input.{Input};
ghost use Rattle.build_meaning.specs.Commands.{key_of, meaning_of};
ghost use Rattle.tool_commands.specs.InputKeys.{asked};

/// The signature of a command of a manifest is shorter than 2^32 bytes, so that its counts fit and it tells commands apart that
/// do not do the same.
pub fn signatures_are_short()
    ensures { (c : Command) → IsCommand c → length (signature_of (meaning_of c)) < 2 ^ 32 }
{}

/// The keys of a target's nodes are spelled in fewer than 2^32 bytes.
pub fn keys_are_short()
    ensures { (t : TargetEntry) → IsTarget t → length (list_bytes key_bytes (map key_of t.nodes)) < 2 ^ 32 }
{}

/// Two commands of a manifest have the same signature exactly where they mean the same.
pub fn same_text_is_same_meaning()
    ensures same { (a b : Command) → IsCommand a → signature_of (meaning_of a) ≡ signature_of (meaning_of b) → meaning_of a ≡ meaning_of b }
    ensures back { (a b : Command) → meaning_of a ≡ meaning_of b → signature_of (meaning_of a) ≡ signature_of (meaning_of b) }
{}

/// The key that an input of a manifest asks for is spelled as a signature spells what the input asks.
pub fn keys_have_one_spelling()
    ensures { (input : Input) → IsRead input.node input.form → spelled (asked input.form input.node) ≡ key_bytes (key_of input) }
{}
