// The text of a JSON Pointer.
ghost use Rattle.std.specs.Prelude.{◌≡◌, ◌<◌, ◌++◌, ◌∷◌, IfOk, OnOk, string_bytes};
ghost use Rattle.aso_outjson.specs.Pointer.{escaped, pointer, put_for};

use crate::path::Path;
use std::alloc::{AllocError, Global};

// The text itself, as a text of its own to a proof.
fn same(text: &str) -> &str
    ensures { result.now ≡ text.now }
{
    text
}

// The text, with another in place of each mark.
fn put_for(alloc: Global, mark: char, other: &str, text: &str) -> Result<String, AllocError>
    requires { mark < 128 }
    ensures { IfOk result (λ s. string_bytes s ≡ put_for mark other.now text.now) }
{
    let mut out = String::new(alloc);
    let mut rest = text;
    while let Some((before, after)) = rest.split_once(mark) {
        out.push_str(before)?;
        out.push_str(other)?;
        rest = same(after);
    }
    out.push_str(rest)?;
    Ok(out)
}

fn put_name(alloc: Global, name: &str, out: &mut String) -> Result<(), AllocError>
    ensures { OnOk result (string_bytes out.new ≡ string_bytes out.old ++ 47 ∷ escaped name.now) }
{
    let no_tildes = put_for(alloc, '~', "~0", name)?;
    let no_slashes = put_for(alloc, '/', "~1", no_tildes.as_str())?;
    out.push('/')?;
    out.push_str(no_slashes.as_str())?;
    Ok(())
}

/// The JSON Pointer of a path (RFC 6901).
pub fn pointer(alloc: Global, path: &Path) -> Result<String, AllocError>
    ensures { IfOk result (λ s. string_bytes s ≡ pointer path.now) }
{
    let names = path.names();
    let mut out = String::new(alloc);
    let mut left = names.len();
    while 0 < left {
        left -= 1;
        put_name(alloc, names[left].as_str(), &mut out)?;
    }
    Ok(out)
}
