//! Layout and comments.
ghost use Rattle.std.specs.Prelude.{◌≡◌, IfSome, IfNone, IfOk, IfErr, Some, None, IsCharBoundary};
ghost use Rattle.au_model.specs.Syntax.Characters.{chars_from};
ghost use Rattle.au_model.specs.Syntax.Layout.{after_comment, after_layout, GapThen, GapNotClosed};
ghost use Rattle.token_scan.specs.ScannedParts.{IsPlaceFrom};

use crate::cursor::{Class, is_next, peek, run_end, step};
use au_model::characters::is_blank;

/// Where the comment that is open at a place ends.
fn comment_end(text: &str, at: usize) -> Option<usize>
    requires { IsCharBoundary text.now at }
    ensures some { IfSome result (λ end. after_comment (chars_from text.now at) ≡ Some (chars_from text.now end)) }
    ensures place { IfSome result (λ end. IsPlaceFrom text.now at end) }
    ensures none { IfNone result (after_comment (chars_from text.now at) ≡ None) }
{
    let mut here = at;
    while let Some(c) = peek(text, here) {
        let after = step(text, here, c);
        if c == '*' && is_next(text, after, '/') {
            return Some(step(text, after, '/'));
        }
        here = after;
    }
    None
}

/// The place after layout, or that of a comment that is not closed.
pub(crate) fn skip_layout(text: &str, at: usize) -> Result<usize, usize>
    requires { IsCharBoundary text.now at }
    ensures clear { IfOk result (λ end. after_layout (chars_from text.now at) ≡ GapThen (chars_from text.now end)) }
    ensures end { IfOk result (λ end. IsPlaceFrom text.now at end) }
    ensures unclosed { IfErr result (λ place. after_layout (chars_from text.now at) ≡ GapNotClosed (chars_from text.now place)) }
    ensures place { IfErr result (λ place. IsPlaceFrom text.now at place) }
{
    let mut here = at;
    while let Some(c) = peek(text, here) {
        let after = step(text, here, c);
        if is_blank(c) {
            here = after;
        } else if c == '%' {
            here = run_end(text, after, Class::Line);
        } else if c == '/' && is_next(text, after, '*') {
            match comment_end(text, step(text, after, '*')) {
                Some(end) => here = end,
                None => return Err(here),
            }
        } else {
            return Ok(here);
        }
    }
    Ok(here)
}
