//! How many lines of paper a request needs.
ghost use Rattle.std.specs.Prelude.{◌≡◌, ◌≤◌, ◌<◌, None, IfSome, nat_le};
ghost use Rattle.pos_service.specs.Receipts.{pieces, pieces_in};
ghost use Rattle.pos_sims.specs.PaperNeeds.{need, need_step, needs};
ghost use Rattle.pos_sims.specs.Tapes.{pieces_asked};

use crate::tape::Asked;
use pos_service::receipt_text::{Piece, Token, cut_of, next_token};

/// What a request needs so far.
#[derive(Clone, Copy)]
pub(crate) struct Need {
    /// How many characters the line buffer has.
    pub begun: u32,
    /// How many lines of paper were used.
    pub lines: u32,
}

/// Returns what is needed after one more line, or `None` if there is none.
fn end_line(limit: u32, n: Need) -> Option<Need>
    requires { n.lines ≤ limit }
    ensures some { IfSome result (λ m. (m ≡ need_step 1 n Piece.LineEnd) × (m.lines ≤ limit)) }
    ensures none { result ≡ None → limit ≡ n.lines }
{
    if n.lines == limit {
        return None;
    }
    Some(Need {
        begun: 0,
        lines: n.lines + 1,
    })
}

/// Returns what is needed after one piece, or `None` if there aren't so many lines.
fn take_piece(chars: u32, limit: u32, n: Need, piece: Piece) -> Option<Need>
    requires chars { (1 ≤ chars) × (chars ≤ 255) }
    requires lines { n.lines ≤ limit }
    requires begun { n.begun ≤ chars }
    ensures some { IfSome result (λ m. m ≡ need_step chars n piece) }
    ensures within { IfSome result (λ m. (m.lines ≤ limit) × (m.begun ≤ chars)) }
    ensures none { result ≡ None → limit < (need_step chars n piece).lines }
{
    match piece {
        Piece::Character(_) => {
            let Need { begun, lines } = if n.begun == chars {
                end_line(limit, n)?
            } else {
                n
            };
            Some(Need {
                begun: begun + 1,
                lines,
            })
        }
        Piece::LineEnd => end_line(limit, n),
        Piece::Return | Piece::Cut(_) => {
            if n.begun == 0 {
                Some(n)
            } else {
                end_line(limit, n)
            }
        }
        Piece::Bold | Piece::Align(_) | Piece::Normal | Piece::OutOfRange => Some(n),
    }
}

/// Returns what is needed after the pieces of a token, or `None` if there aren't so many lines.
#[tactic(auto, using(crate::proofs::NeedLemmas::ends_need))]
fn take_token(chars: u32, limit: u32, n: Need, token: Token) -> Option<Need>
    requires chars { (1 ≤ chars) × (chars ≤ 255) }
    requires lines { n.lines ≤ limit }
    requires begun { n.begun ≤ chars }
    ensures some { IfSome result (λ m. m ≡ needs chars n (pieces_in token)) }
    ensures within { IfSome result (λ m. (m.lines ≤ limit) × (m.begun ≤ chars)) }
    ensures none { result ≡ None → limit < (needs chars n (pieces_in token)).lines }
{
    match token {
        Token::Nothing => Some(n),
        Token::One(piece) => take_piece(chars, limit, n, piece),
        Token::LineEnds(count) => {
            if count == 0 {
                return Some(n);
            }
            if limit - n.lines < u32::from(count) {
                return None;
            }
            Some(Need {
                begun: 0,
                lines: n.lines + u32::from(count),
            })
        }
    }
}

/// Returns whether the pieces of these bytes need at most so many lines, after a line buffer of so many characters.
fn text_fits(chars: u32, limit: u32, begun: u32, bytes: &[u8]) -> bool
    requires chars { (1 ≤ chars) × (chars ≤ 255) }
    requires begun { begun ≤ chars }
    ensures { result ≡ nat_le (needs chars (need begun 0) (pieces bytes.now)).lines limit }
{
    let mut n = Need { begun, lines: 0 };
    let mut rest = bytes;
    while !rest.is_empty() {
        let (token, next) = next_token(rest);
        let Some(more) = take_token(chars, limit, n, token) else {
            return false;
        };
        n = more;
        rest = next;
    }
    true
}

/// Returns whether a request needs at most so many lines, after a line buffer of so many characters.
pub(crate) fn request_fits(chars: u32, limit: u32, begun: u32, asked: &Asked<'_>) -> bool
    requires chars { (1 ≤ chars) × (chars ≤ 255) }
    requires begun { begun ≤ chars }
    ensures { result ≡ nat_le (needs chars (need begun 0) (pieces_asked asked.now)).lines limit }
{
    match asked {
        Asked::Text(bytes) => text_fits(chars, limit, begun, bytes),
        Asked::Cut(percentage) => {
            let n = Need { begun, lines: 0 };
            take_token(chars, limit, n, cut_of(u32::from(*percentage))).is_some()
        }
    }
}
