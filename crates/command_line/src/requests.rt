//! Whether the arguments ask for help or for the version.
ghost use Rattle.std.specs.Prelude.{◌≡◌, map, string_bytes};
ghost use Rattle.command_line.specs.Requests.{asks_for_help, has_request, is_request};

/// Whether these arguments, of which the first is the program's name, ask for help or for the version.
pub(crate) fn is_help_asked(list: &[String]) -> bool
    ensures { result ≡ asks_for_help (map string_bytes list.now) }
{
    let Some(word) = list.get(1) else {
        return false;
    };
    if word.as_str() == "help" {
        return true;
    }
    is_any_request(&list[1..])
}

// Whether one of these arguments in front of the first `--` is a request.
fn is_any_request(words: &[String]) -> bool
    ensures { result ≡ has_request (map string_bytes words.now) }
{
    for word in words {
        if word.as_str() == "--" {
            return false;
        }
        if is_for_help(word.as_str()) {
            return true;
        }
    }
    false
}

// Whether this argument asks for help or for the version.
fn is_for_help(word: &str) -> bool
    ensures { result ≡ is_request word.now }
{
    let bytes = word.as_bytes();
    word == "--help"
        || word == "--version"
        || bytes.starts_with(b"-h".as_slice())
        || bytes.starts_with(b"-V".as_slice())
}
