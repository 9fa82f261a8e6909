//! Texts that differ by few edits, each of which puts in, takes out or changes one byte.
ghost use Rattle.std.specs.Prelude.{◌≡◌, find, map, option_map};
ghost use Rattle.std.specs.Option.{option_copied};
ghost use Rattle.cdi_base.specs.Near as spec;

/// Whether two texts differ by at most one edit.
fn differ_by_one(text: &[u8], other: &[u8]) -> bool
    ensures { result ≡ spec.differ_by_one text.now other.now }
{
    let [first, text_rest @ ..] = text else {
        return other.len() <= 1;
    };
    let [other_first, other_rest @ ..] = other else {
        return text.len() <= 1;
    };
    if first == other_first {
        return differ_by_one(text_rest, other_rest);
    }
    text_rest == other_rest || text_rest == other || text == other_rest
}

/// Whether two texts differ by at most two edits.
fn differ_by_two(text: &[u8], other: &[u8]) -> bool
    ensures { result ≡ spec.differ_by_two text.now other.now }
{
    let [first, text_rest @ ..] = text else {
        return other.len() <= 2;
    };
    let [other_first, other_rest @ ..] = other else {
        return text.len() <= 2;
    };
    if first == other_first {
        return differ_by_two(text_rest, other_rest);
    }
    differ_by_one(text_rest, other_rest)
        || differ_by_one(text_rest, other)
        || differ_by_one(text, other_rest)
}

fn is_near(written: &str, known: &str) -> bool
    ensures { result ≡ spec.is_near written.now known.now }
{
    written.len() > 1 && differ_by_one(written.as_bytes(), known.as_bytes())
}

fn is_rather_near(written: &str, known: &str) -> bool
    ensures { result ≡ spec.is_rather_near written.now known.now }
{
    written.len() > 4 && differ_by_two(written.as_bytes(), known.as_bytes())
}

/// The first text that is near, in its list.
fn first_near<'a, 'k>(written: &str, known: &'a [&'k str]) -> Option<&'a &'k str>
    ensures { option_copied result ≡ find (λ text. spec.is_near written.now text.now) known.now }
{
    known.iter().find(|text| is_near(written, text))
}

/// The first text that is rather near, in its list.
fn first_rather_near<'a, 'k>(written: &str, known: &'a [&'k str]) -> Option<&'a &'k str>
    ensures { option_copied result
        ≡ find (λ text. spec.is_rather_near written.now text.now) known.now }
{
    known.iter().find(|text| is_rather_near(written, text))
}

/// The known text that was probably meant by one that was written: the first that differs from it by at most one edit, or else
/// the first that does by at most two, each of which puts in, takes out or changes one byte. A text of fewer than two bytes,
/// or of fewer than five for two edits, is near to none.
#[tactic(auto, using(crate::proofs::Found::found_among_values))]
pub fn nearest<'k>(written: &str, known: &[&'k str]) -> Option<&'k str>
    ensures { option_map (λ text. text.now) result
        ≡ spec.nearest written.now (map (λ text. text.now) known.now) }
{
    match first_near(written, known).copied() {
        Some(text) => Some(text),
        None => first_rather_near(written, known).copied(),
    }
}
