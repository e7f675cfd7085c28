// A line's end and its shape.
ghost use Rattle.std.specs.Prelude.{◌≡◌};
ghost use Rattle.commands.specs.Shapes.{end_of, is_plain, number_shape, set_order, conf_order, group_right, get_order, has_keyword, order_of};

use figures::{digit, number, run_before, same, starts};

// What a line of a right shape orders. PUT's word and GET's indexes stand in the line.
#[derive(Clone, Copy, PartialEq, Eq)]
pub enum Order {
    Set(u64, u64),
    Conf(u64),
    Put,
    Get,
    Undo,
    Keep,
}

// Why a line orders nothing: its keyword goes on wrongly, or it starts with none.
#[derive(Clone, Copy, PartialEq, Eq)]
pub enum NoOrder {
    WrongShape,
    NoKeyword,
}

// Gives the length of a line's end: 1 for CR, 2 for CR LF, 0 for none.
pub fn end_of(line: &[u8]) -> usize
    ensures { result ≡ end_of line.now }
{
    match line {
        [.., b'\r'] => 1,
        [.., b'\r', b'\n'] => 2,
        _ => 0,
    }
}

// Tells whether there is no CR and no LF.
pub fn is_plain(s: &[u8]) -> bool
    ensures { result ≡ is_plain s.now }
{
    s.iter().all(|b| *b != b'\r' && *b != b'\n')
}

// Reads a number: 1 to 4 digits and no leading zero, save 0 itself.
fn number_of(s: &[u8]) -> Option<u64>
    ensures { result ≡ number_shape s.now }
{
    let n = s.len();
    if n == 0 || 4 < n || (1 < n && s[0] == b'0') {
        return None;
    }
    number(s)
}

fn set_order(s: &[u8]) -> Result<Order, NoOrder>
    ensures { result ≡ set_order s.now }
{
    let cut = run_before(s, b'/');
    if s.len() <= cut {
        return Err(NoOrder::WrongShape);
    }
    let setting = number_of(&s[..cut]).ok_or(NoOrder::WrongShape)?;
    let parameter = number_of(&s[cut + 1..]).ok_or(NoOrder::WrongShape)?;
    Ok(Order::Set(setting, parameter))
}

fn conf_order(s: &[u8]) -> Result<Order, NoOrder>
    ensures { result ≡ conf_order s.now }
{
    let setting = number_of(s).ok_or(NoOrder::WrongShape)?;
    Ok(Order::Conf(setting))
}

// Tells whether one group of GET stands first: /WI and two digits.
fn group_right(s: &[u8]) -> bool
    ensures { result ≡ group_right s.now }
{
    5 <= s.len() && starts(s, b"/WI") && digit(s[3]) && digit(s[4])
}

fn get_order(s: &[u8]) -> Result<Order, NoOrder>
    ensures { result ≡ get_order s.now }
{
    if s.is_empty() || s.len() % 5 != 0 || !s.chunks_exact(5).all(group_right) {
        return Err(NoOrder::WrongShape);
    }
    Ok(Order::Get)
}

fn has_keyword(text: &[u8]) -> bool
    ensures { result ≡ has_keyword text.now }
{
    starts(text, b"SET")
        || starts(text, b"CONF")
        || starts(text, b"PUT")
        || starts(text, b"GET")
        || starts(text, b"UNDO")
        || starts(text, b"KEEP")
}

// Finds the shape of a line without its end.
#[tactic(auto, using(figures::proofs::Bytes::starts_strip))]
pub fn order_of(text: &[u8]) -> Result<Order, NoOrder>
    ensures { result ≡ order_of text.now }
{
    if let Some(rest) = text.strip_prefix(b"SET/") {
        return set_order(rest);
    }
    if let Some(rest) = text.strip_prefix(b"CONF/") {
        return conf_order(rest);
    }
    if starts(text, b"PUT/") {
        if text.len() == 20 {
            return Ok(Order::Put);
        }
        return Err(NoOrder::WrongShape);
    }
    if let Some(groups) = text.strip_prefix(b"GET/I") {
        return get_order(groups);
    }
    if same(text, b"UNDO") {
        return Ok(Order::Undo);
    }
    if same(text, b"KEEP") {
        return Ok(Order::Keep);
    }
    if has_keyword(text) {
        return Err(NoOrder::WrongShape);
    }
    Err(NoOrder::NoKeyword)
}
