//! The automaton over JSON and UTF-8 as a table: which state a byte leads to from which.
//!
//! A byte costs one look-up from its state, so states are numbers, and the table is written in letters so that it can
//! be read. It is held to the automata of `specs/` at each state and byte by the proof of `transition`.
//! Capitals in brackets are the same places in a member's name.
//!
//! | State | Where the check stands |
//! |---|---|
//! | `W` | a value comes |
//! | `o` | the same, after a colon: the one space that mostly stands there begins no run |
//! | `A` `O` | after the bracket that opens an array, an object |
//! | `N` `C` `Z` | a member's name comes; its colon comes; a value has ended |
//! | `s` (`S`) | in a string |
//! | `b` (`B`) | after its reverse solidus |
//! | `h` `i` `j` `k` (`H` to `K`) | before the first to the fourth digit of `\u` |
//! | `t` `u` `v` (`T` `U` `V`) | in a character of which one, two, three bytes are left |
//! | `e` `d` `f` `g` (`E` `D` `F` `G`) | after E0, ED, F0, F4, whose next byte has a narrower range |
//! | `m` `z` `n` `p` `c` | after a minus; a first zero; other digits; the point; the digits after it |
//! | `x` `y` `w` | after an exponent's E; its sign; its digits |
//! | `P` `Q` `R`, `L` `M` `X` `Y`, `l` `q` `r` | after so many letters of `true`, `false`, `null` |
ghost use Rattle.std.specs.Prelude.{◌≡◌, ◌≤◌, ◌-◌, ◌<◌, ℕ, List, Bool, true, length, take, drop, get_or};
ghost use Rattle.wx_json.specs.States.{is_state, is_in_string, is_between_tokens, is_in_digits, mode_of};
ghost use Rattle.wx_json.specs.States.{coding_of, entered, next_of, Leads, LeadsAt, Asks, CommaLeads};
ghost use Rattle.wx_json.specs.Check.{running, advance};

use crate::runs::{digits_end, plain_end, white_end};

/// An entry from here on is the next state. One below asks for more than a state:
pub(crate) const FIRST_STATE: u8 = b'@';
/// a string that is no name goes on,
pub(crate) const STRING: u8 = b'+';
/// a member's name goes on,
pub(crate) const NAME: u8 = b'*';
/// a run of white space or digits, which leave the state as it is, goes on,
pub(crate) const RUN: u8 = b'=';
/// a comma after a value,
pub(crate) const COMMA: u8 = b',';
/// an array or an object opens,
pub(crate) const OPEN_ARRAY: u8 = b'(';

pub(crate) const OPEN_OBJECT: u8 = b'<';
/// the container that has just been opened closes, an array, an object,
pub(crate) const CLOSE_EMPTY: u8 = b'-';

pub(crate) const CLOSE_ARRAY: u8 = b')';

pub(crate) const CLOSE_OBJECT: u8 = b'>';
/// no UTF-8 text has the byte here. Any other entry is a fault of syntax.
pub(crate) const BAD_UTF8: u8 = b'!';

/// The class of each byte, from `0` on: the row of the table.
static CLASSES: [u8; 256] = *b"\
    00000000011001000000000000000000\
    2343333333356789:;;;;;;;;;<33333\
    3====>=33333333333333333333?@A33\
    3BC==DE33333F3G333HIJK33333L3M33\
    NNNNNNNNNNNNNNNNOOOOOOOOOOOOOOOO\
    PPPPPPPPPPPPPPPPPPPPPPPPPPPPPPPP\
    QQRRRRRRRRRRRRRRRRRRRRRRRRRRRRRR\
    STTTTTTTTTTTTUTTVWWWXQQQQQQQQQQQ";

/// By the byte's class, then by the state: the 64 columns are for `@` to `O`, `P` to `_`, `` ` `` to `o` and `p` on.
#[rattlefmt::skip]
static TRANSITIONS: [[u8; 64]; 41] = [
    *b"....!!!!............!!!.............!!!!............!!!.........", // other control characters
    *b".=.=!!!!......==....!!!=..=........Z!!!!......ZW....!!!Z..Z.....", // tab, line feed, carriage return
    *b".=.=!!!!......==...S!!!=..=........Z!!!!......ZW...s!!!Z..Z.....", // space
    *b"....!!!!...........S!!!.............!!!!...........s!!!.........", // other bytes of ASCII
    *b".+*.!!!!......**...C!!!+..........+.!!!!.......+...Z!!!.........", // "
    *b"....!!!!...........S!!!.............!!!!...........s!!!.y.......", // +
    *b"....!!!!...........S!!!...,........,!!!!......,....s!!!,..,.....", // ,
    *b".m..!!!!...........S!!!m............!!!!.......m...s!!!.y.......", // -
    *b"....!!!!...........S!!!.............!!!!......p....s!!!...p.....", // .
    *b"..*.!!!!...........S!!!...........+.!!!!...........s!!!.........", // /
    *b".z..!!!!IJK*.......S!!!z...........=!!!!ijk+.z=zc..s!!!=ww......", // 0
    *b".n..!!!!IJK*.......S!!!n...........=!!!!ijk+.n=nc..s!!!=ww......", // 1 to 9
    *b"...o!!!!...........S!!!.............!!!!...........s!!!.........", // :
    *b"....!!!!IJK*.......S!!!.............!!!!ijk+.......s!!!.........", // A to D, F, c, d
    *b"....!!!!IJK*.......S!!!............x!!!!ijk+..x....s!!!...x.....", // E
    *b".(..!!!!...........S!!!(............!!!!.......(...s!!!.........", // [
    *b"..*.!!!!...........B!!!...........+.!!!!...........b!!!.........", // \
    *b".-..!!!!...........S!!!...)........)!!!!......)....s!!!)..).....", // ]
    *b"....!!!!IJK*M......S!!!.............!!!!ijk+.......s!!!.........", // a
    *b"..*.!!!!IJK*.......S!!!...........+.!!!!ijk+.......s!!!.........", // b
    *b"....!!!!IJK*......ZS!!!..Z.........x!!!!ijk+..x....s!!!...x.....", // e
    *b".L*.!!!!IJK*.......S!!!L..........+.!!!!ijk+...L...s!!!.........", // f
    *b"....!!!!.....X.....S!!!.............!!!!.........rZs!!!.........", // l
    *b".l*.!!!!...........S!!!l..........+.!!!!.......l...s!!!.........", // n
    *b"..*.!!!!........Q..S!!!...........+.!!!!...........s!!!.........", // r
    *b"....!!!!...........S!!!.Y...........!!!!...........s!!!.........", // s
    *b".P*.!!!!...........S!!!P..........+.!!!!.......P...s!!!.........", // t
    *b"..H.!!!!.........R.S!!!...........h.!!!!....q......s!!!.........", // u
    *b".<..!!!!...........S!!!<............!!!!.......<...s!!!.........", // {
    *b"....!!!!.......-...S!!!...>........>!!!!......>....s!!!>..>.....", // }
    *b".!!!T!!U!!!!!!!!!!!!STU!!!!.......!!t!!u!!!!!!!!!!!!stu!!!!.....", // 80 to 8F
    *b".!!!T!U!!!!!!!!!!!!!STU!!!!.......!!t!u!!!!!!!!!!!!!stu!!!!.....", // 90 to 9F
    *b".!!!!TU!!!!!!!!!!!!!STU!!!!.......!!!tu!!!!!!!!!!!!!stu!!!!.....", // A0 to BF
    *b".!!!!!!!!!!!!!!!!!!!!!!!!!!.......!!!!!!!!!!!!!!!!!!!!!!!!!.....", // C0, C1, F5 to FF
    *b"....!!!!...........T!!!.............!!!!...........t!!!.........", // C2 to DF
    *b"....!!!!...........E!!!.............!!!!...........e!!!.........", // E0
    *b"....!!!!...........U!!!.............!!!!...........u!!!.........", // E1 to EC, EE, EF
    *b"....!!!!...........D!!!.............!!!!...........d!!!.........", // ED
    *b"....!!!!...........F!!!.............!!!!...........f!!!.........", // F0
    *b"....!!!!...........V!!!.............!!!!...........v!!!.........", // F1 to F3
    *b"....!!!!...........G!!!.............!!!!...........g!!!.........", // F4
];

/// Where a run of states ends, and the entry that ended it.
#[derive(Clone, Copy)]
pub(crate) struct Stop {
    pub state: u8,
    pub at: usize,
    pub entry: u8,
}

/// The entry for a byte at a state.
#[inline(always)]
fn transition(state: usize, c: u8) -> u8
    requires { is_state state ≡ true }
    ensures state { 64 ≤ result → is_state result ≡ true }
    ensures value { (k n : ℕ) (σ : List Bool) →
        entered result (running k (coding_of state) (mode_of state) n σ)
        ≡ advance (running k (coding_of state) (mode_of state) n σ) c }
{
    TRANSITIONS[CLASSES[c as usize] as usize - b'0' as usize][state - 64]
}

/// Goes from state to state until an entry asks for more, or the piece ends.
#[inline(always)]
fn follow(start: u8, piece: &[u8], from: usize) -> Stop
    requires state { is_state start ≡ true }
    requires within { from ≤ length piece.now }
    ensures state { is_state result.state ≡ true }
    ensures bounds { (from ≤ result.at) × (result.at ≤ length piece.now) }
    ensures value { Leads start result.state (take (result.at - from) (drop from piece.now)) (result.at - from) }
    ensures entry { result.entry < 64 }
    ensures next { result.at < length piece.now → Asks result.entry result.state (get_or piece.now result.at 0) }
{
    let mut state = start as usize;
    let mut at = from;
    while at < piece.len() {
        let entry = transition(state, piece[at]);
        if entry < FIRST_STATE {
            return Stop {
                state: state as u8,
                at,
                entry,
            };
        }
        state = entry as usize;
        at += 1;
    }
    Stop {
        state: state as u8,
        at,
        entry: b'.',
    }
}

/// Whether the state is in a string, between two characters.
#[inline(always)]
fn in_string(state: u8) -> bool
    ensures { result ≡ is_in_string state }
{
    state == b's' || state == b'S'
}

/// Whether the state is between two tokens, neither of them a number.
#[inline(always)]
fn between_tokens(state: u8) -> bool
    ensures { result ≡ is_between_tokens state }
{
    state == b'A'
        || state == b'O'
        || state == b'W'
        || state == b'N'
        || state == b'C'
        || state == b'Z'
}

/// Whether the state is in a number, after a digit that any other may follow.
#[inline(always)]
fn in_digits(state: u8) -> bool
    ensures { result ≡ is_in_digits state }
{
    state == b'n' || state == b'c' || state == b'w'
}

/// Passes over bytes that leave the state as it is: plain ones of a string, white space and digits.
#[inline(always)]
fn skip(state: u8, piece: &[u8], from: usize) -> usize
    requires { from ≤ length piece.now }
    ensures bounds { (from ≤ result) × (result ≤ length piece.now) }
    ensures value { Leads state state (take (result - from) (drop from piece.now)) (result - from) }
{
    if in_string(state) {
        plain_end(piece, from)
    } else if between_tokens(state) {
        white_end(piece, from)
    } else if in_digits(state) {
        digits_end(piece, from)
    } else {
        from
    }
}

/// The state to which an entry leads that asks for no more than that, or 0. A comma leads to `after_comma`.
#[inline(always)]
fn plain_next(entry: u8, state: u8, after_comma: u8) -> u8
    ensures { result ≡ next_of entry state after_comma }
{
    match entry {
        STRING => b's',
        NAME => b'S',
        COMMA => after_comma,
        RUN => state,
        _ => 0,
    }
}

/// Goes on until a container opens or closes, a byte is at fault, or the piece ends. A comma leads to the state
/// `after_comma`; where that is no state, it stops too.
#[inline(always)]
pub(crate) fn travel(start: u8, after_comma: u8, piece: &[u8], from: usize) -> Stop
    requires state { is_state start ≡ true }
    requires comma { 64 ≤ after_comma → is_state after_comma ≡ true }
    requires within { from ≤ length piece.now }
    ensures state { is_state result.state ≡ true }
    ensures bounds { (from ≤ result.at) × (result.at ≤ length piece.now) }
    ensures value { (σ : List Bool) → CommaLeads after_comma σ →
        LeadsAt σ start result.state (take (result.at - from) (drop from piece.now)) (result.at - from) }
    ensures entry { result.entry < 64 }
    ensures next { result.at < length piece.now → Asks result.entry result.state (get_or piece.now result.at 0) }
{
    let mut state = start;
    let mut at = from;
    while at < piece.len() {
        let begin = skip(state, piece, at);
        let stop = follow(state, piece, begin);
        let next = plain_next(stop.entry, stop.state, after_comma);
        if next < FIRST_STATE || stop.at == piece.len() {
            return stop;
        }
        state = next;
        at = stop.at + 1;
    }
    Stop {
        state,
        at,
        entry: b'.',
    }
}
