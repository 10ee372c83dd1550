//! Texts with the escapes of XML.
ghost use Rattle.std.specs.Prelude.{◌≡◌, ◌++◌, OnOk, string_bytes};
ghost use Rattle.v_frame_chart.specs.Labels.{allowed, escaped, escaped_words};

use std::alloc::AllocError;

/// Appends a text. Characters that would end a text or an attribute of XML are escaped, and `?` replaces characters that XML does not
/// allow.
pub(crate) fn push_escaped(text: &mut String, words: &str) -> Result<(), AllocError>
    ensures { OnOk result (string_bytes text.new ≡ string_bytes text.old ++ escaped_words words.now) }
{
    for letter in words.chars() {
        push_letter(text, letter)?;
    }
    Ok(())
}

/// Appends a character.
fn push_letter(text: &mut String, letter: char) -> Result<(), AllocError>
    ensures { OnOk result (string_bytes text.new ≡ string_bytes text.old ++ escaped letter) }
{
    match letter {
        '&' => text.push_str("&amp;"),
        '<' => text.push_str("&lt;"),
        '>' => text.push_str("&gt;"),
        '"' => text.push_str("&quot;"),
        '\'' => text.push_str("&#39;"),
        letter => text.push(if is_allowed(letter) { letter } else { '?' }),
    }
}

/// Returns whether XML 1.0 allows a character.
fn is_allowed(letter: char) -> bool
    ensures { result ≡ allowed letter }
{
    let code = u32::from(letter);
    code >= 32 && code != 0xfffe && code != 0xffff || code == 9 || code == 10 || code == 13
}
