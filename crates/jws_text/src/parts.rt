//! The parts between dots.

ghost use Rattle.std.specs.Prelude.{◌≡◌, ◌<◌, ◌==◌, length, position, IfSome, option_map};
ghost use Rattle.jws_text.specs.Tokens.{is_dot, cut, parts_of};

/// The first dot.
fn dot(text: &[u8]) -> Option<usize>
    ensures place { result ≡ position is_dot text.now }
    ensures bound { IfSome result (λ at. at < length text.now) }
{
    text.iter().position(|byte| *byte == b'.')
}

/// What stands before the first dot, and after it.
#[tactic(auto, unfolding(crate::specs::Tokens::cut))]
fn cut(text: &[u8]) -> Option<(&[u8], &[u8])>
    ensures { option_map (λ p. (p.0.now, p.1.now)) result ≡ cut text.now }
{
    match dot(text) {
        Some(at) => {
            let (front, rest) = text.split_at(at);
            Some((front, rest.split_at(1).1))
        }
        None => None,
    }
}

/// The head and the claims of a token, as they stand in it, where it has three parts.
#[tactic(auto, unfolding(crate::specs::Tokens::parts_of))]
pub(crate) fn parts_of(token: &[u8]) -> Option<(&[u8], &[u8])>
    ensures { option_map (λ p. (p.0.now, p.1.now)) result ≡ parts_of token.now }
{
    let (head, rest) = cut(token)?;
    let (claims, signature) = cut(rest)?;
    match cut(signature) {
        Some(_) => None,
        None => Some((head, claims)),
    }
}
