//! Words that ask what becomes of the inputs of another command.
//! The bytes of a refused file are asked for once more, since a reader keeps none; so are policy and schemes. The
//! opening of a shell's session is asked for too; what the commands of a script are denied is no matter of its inputs.
//! A refused store ends it with 1: 3 says that nothing could be told.
ghost use Rattle.std.specs.Prelude.{◌≡◌, option_map, IfOk};
ghost use Rattle.mls_host.specs.Words.{texts_of};
ghost use Rattle.mls_command.specs.Explained.{is_other_command, is_explained, explained_of};

use std::alloc::{AllocError, Global};

/// Whether this is the name of a command whose inputs can be explained.
fn is_other_command(name: &str) -> bool
    ensures { result ≡ is_other_command name.now }
{
    name == "run"
        || name == "shell"
        || name == "serve"
        || name == "turn"
        || name == "show-policy"
        || name == "certify"
        || name == "check"
}

fn is_explained(first: &str, second: &str) -> bool
    ensures { result ≡ is_explained first.now second.now }
{
    first == "explain" && is_other_command(second)
}

/// The words of another command, where `explain` stands before its name.
pub fn explained_of<'a>(
    alloc: Global,
    words: &[&'a str],
) -> Result<Option<Vec<&'a str>>, AllocError>
    ensures { IfOk result (λ asked. option_map (λ v. texts_of v.items) asked ≡ explained_of (texts_of words.now)) }
{
    match words {
        [called, first, second, ..] if is_explained(first, second) => {
            let mut asked = Vec::new(alloc);
            asked.push(*called)?;
            asked.extend_from_slice(&words[2..])?;
            Ok(Some(asked))
        }
        _ => Ok(None),
    }
}
