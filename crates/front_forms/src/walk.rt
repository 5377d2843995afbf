//! Walking along the tokens of a line.
use crate::rows::ROWS;
use crate::want::{Place, Want};
use policy_text_defs::{Edition, Flag, TcpFlags, has_name, is, name_of};
use std::alloc::{AllocError, Global};
use std::net::Ipv6Addr;
use text_core::{MAX, TokenKind, decimal};

/// The most packets of a limit.
const MOST_PACKETS: u64 = 4_194_304;

/// The most bytes of a limit.
const MOST_BYTES: u64 = 4_294_967_295;

/// No TCP flags.
const NO_FLAGS: TcpFlags = TcpFlags {
    fin: false,
    syn: false,
    rst: false,
    psh: false,
    ack: false,
    urg: false,
    ece: false,
    cwr: false,
};

/// The state of an opened parenthesis: the commas that are missing in it, and whether it has a
/// comparison.
#[derive(Clone, Copy)]
struct Frame {
    commas: u32,
    compared: bool,
}

/// What the last token still allows right after it.
#[derive(Clone, Copy, PartialEq, Eq)]
enum Pending {
    Nothing,
    /// What a limit with this number counts.
    Unit(u64),
    /// The destination address among the fields of flows.
    Target,
}

/// A place in a line, and what the tokens before it mean for what may follow.
#[derive(Drop)]
pub struct Walk {
    edition: Edition,
    place: Place,
    /// The place where the last setting began.
    back: Place,
    /// Whether the statement is a leaf.
    leaf: bool,
    /// The settings that are written.
    written: Vec<&'static str>,
    pending: Pending,
    /// The range that is read, or that may be read, and its greatest number for the field.
    low: u64,
    most: u64,
    greatest: u64,
    /// Whether the field is `proto`.
    proto: bool,
    negated: bool,
    /// The TCP flags before the mark between value and mask, and those after it.
    value: TcpFlags,
    flags: TcpFlags,
    /// The commas of the function whose parenthesis comes next.
    opening: u32,
    inner: Frame,
    outer: Vec<Frame>,
    /// Whether the last token is a name.
    named: bool,
}

/// Returns the number that a token is, if it is one that isn't too large.
fn number_of(kind: TokenKind, bytes: &[u8]) -> Option<u64> {
    match kind {
        TokenKind::Number => decimal(bytes),
        _ => None,
    }
}

/// Returns whether there is a number in a range.
fn is_within(number: Option<u64>, least: u64, most: u64) -> bool {
    match number {
        Some(number) => least <= number && number <= most,
        None => false,
    }
}

impl Walk {
    /// Begins at a place of a line in this edition.
    pub fn new(alloc: Global, edition: Edition, place: Place) -> Walk {
        Walk {
            edition,
            place,
            back: place,
            leaf: false,
            written: Vec::new(alloc),
            pending: Pending::Nothing,
            low: 0,
            most: MAX,
            greatest: MAX,
            proto: false,
            negated: false,
            value: NO_FLAGS,
            flags: NO_FLAGS,
            opening: 0,
            inner: Frame {
                commas: 0,
                compared: false,
            },
            outer: Vec::new(alloc),
            named: false,
        }
    }

    /// Returns the place.
    pub fn place(&self) -> Place {
        self.place
    }

    /// Returns whether the line is one of version 3.
    pub fn is_third(&self) -> bool {
        self.edition == Edition::Third
    }

    /// Returns whether the last token is a name.
    pub fn is_named(&self) -> bool {
        self.named
    }

    /// Returns whether a function has another argument.
    pub fn is_inside(&self) -> bool {
        0 < self.inner.commas
    }

    /// Returns the range of a wanted number.
    pub fn range(&self, want: Want) -> (u64, u64) {
        match want {
            Want::Number(least, most) => (least, most),
            Want::Bound if self.is_third() && !self.has("bytes") => (1, MOST_BYTES),
            Want::Bound => (1, MOST_PACKETS),
            Want::Low => (0, self.most),
            _ => (self.low, self.most),
        }
    }

    fn has(&self, setting: &str) -> bool {
        self.written.iter().any(|written| *written == setting)
    }

    /// Returns why only a few of the wanted tokens may follow, if that is so.
    pub fn bar(&self) -> Option<&'static str> {
        match self.pending {
            Pending::Unit(_) if !self.is_third() => Some("`limit` comes last before version 3"),
            Pending::Unit(count) if MOST_PACKETS < count => {
                Some("a limit of packets is at most 4194304")
            }
            Pending::Unit(_) if self.has("packets") => Some("each limit is written once"),
            _ if self.place == Place::MaskNext && !self.value.is_within(self.flags) => {
                Some("each flag of the value is also in the mask")
            }
            _ => None,
        }
    }

    /// Returns whether what is wanted may follow although others may not.
    fn passes(&self, want: Want) -> bool {
        match want {
            Want::Classes => !self.is_third(),
            Want::Unit(_) | Want::Sign(_) => true,
            _ => false,
        }
    }

    /// Returns whether a leaf or node may have another limit.
    fn may_limit(&self) -> bool {
        let has_packets = self.has("packets") || matches!(self.pending, Pending::Unit(_));
        (self.leaf || self.is_third()) && !(has_packets && self.has("bytes") && self.has("per"))
    }

    /// Returns whether the last number may be a limit of what this word names.
    fn may_count(&self, unit: &str) -> bool {
        match self.pending {
            Pending::Unit(count) => !self.has(unit) && (unit == "bytes" || count <= MOST_PACKETS),
            _ => false,
        }
    }

    /// Returns whether the tokens so far allow a setting of a leaf or node, or what follows them.
    fn offers_setting(&self, want: Want) -> bool {
        match want {
            Want::Attribute(text) => !self.has(text),
            Want::Limit => self.may_limit(),
            Want::Unit(text) => self.may_count(text),
            Want::Flow => !self.has("flow"),
            Want::Target => self.pending == Pending::Target,
            Want::Classes => self.leaf,
            Want::Children => !self.leaf,
            _ => true,
        }
    }

    /// Returns whether the tokens so far allow what the place wants.
    pub fn offers(&self, want: Want) -> bool {
        let open = self.outer.len();
        let is_barred = self.bar().is_some() && !self.passes(want);
        if is_barred || (want.is_later() && !self.is_third()) {
            return false;
        }
        match want {
            Want::Not => !self.negated,
            Want::Protocol(_) => self.proto,
            Want::NoFlags => self.value == NO_FLAGS,
            Want::Relation(_) => !self.inner.compared,
            Want::Comma => 0 < self.inner.commas,
            Want::Close => self.inner.commas == 0 && 0 < open,
            Want::Open(most) => open < most,
            Want::Inside(_) | Want::OpenInside => 0 < open,
            Want::End => open == 0,
            _ => self.offers_setting(want),
        }
    }

    /// Returns whether the edition allows these bytes as a name.
    pub fn is_name(&self, bytes: &[u8]) -> bool {
        name_of(bytes).is_some() && has_name(self.edition, bytes)
    }

    /// Returns whether a token is what is wanted, if the tokens before it allow it.
    pub fn takes(&self, want: Want, kind: TokenKind, bytes: &[u8]) -> bool {
        if let Some(text) = want.text() {
            return is(bytes, text);
        }
        if want.is_name() {
            return self.is_name(bytes);
        }
        match want {
            Want::LongAddress => Ipv6Addr::parse_ascii(bytes).is_ok(),
            Want::Flag => Flag::of(bytes).is_some_and(|flag| !self.flags.has(flag)),
            _ => {
                let (least, most) = self.range(want);
                want.is_number() && is_within(number_of(kind, bytes), least, most)
            }
        }
    }

    fn open(&mut self) -> Result<(), AllocError> {
        self.outer.push(self.inner)?;
        self.inner = Frame {
            commas: self.opening,
            compared: false,
        };
        self.opening = 0;
        Ok(())
    }

    fn close(&mut self) {
        if let Some(frame) = self.outer.pop() {
            self.inner = frame;
        }
    }

    /// Notes that a setting begins.
    fn begin(&mut self, setting: &'static str) -> Result<(), AllocError> {
        self.back = self.place;
        self.written.push(setting)?;
        Ok(())
    }

    /// Notes what a token of a statement's settings means for the tokens after it.
    fn note_setting(&mut self, want: Want, number: u64) -> Result<(), AllocError> {
        let is_unit = matches!(want, Want::Unit(_));
        if matches!(self.pending, Pending::Unit(_)) && !is_unit {
            self.written.push("packets")?;
        }
        self.pending = match want {
            Want::Bound => Pending::Unit(number),
            Want::Source => Pending::Target,
            _ => Pending::Nothing,
        };
        match want {
            Want::Start(text) => self.leaf = text == "leaf",
            Want::Attribute(text) => self.begin(text)?,
            Want::Flow => self.begin("flow")?,
            Want::Limit => self.back = self.place,
            Want::Unit(text) => self.written.push(text)?,
            _ => (),
        }
        Ok(())
    }

    /// Notes what a token of a condition means for the tokens after it.
    fn note_condition(&mut self, want: Want, bytes: &[u8]) {
        match want {
            Want::Not => self.negated = true,
            Want::Field(text, most) | Want::LaterField(text, most) => {
                self.proto = text == "proto";
                self.negated = false;
                self.low = 0;
                self.most = most;
                self.greatest = most;
                self.value = NO_FLAGS;
                self.flags = NO_FLAGS;
            }
            Want::Next => {
                self.low = 0;
                self.most = self.greatest;
            }
            Want::Flag => {
                if let Some(flag) = Flag::of(bytes) {
                    self.flags = self.flags.with(flag);
                }
            }
            Want::Over => {
                self.value = self.flags;
                self.flags = NO_FLAGS;
            }
            _ => (),
        }
    }

    /// Notes what a token means for the tokens after it.
    fn note(&mut self, want: Want, number: u64, bytes: &[u8]) -> Result<(), AllocError> {
        self.note_setting(want, number)?;
        self.note_condition(want, bytes);
        match want {
            Want::Low => self.low = number,
            Want::High => self.most = number,
            Want::Call(_, commas) => self.opening = commas,
            Want::Relation(_) => self.inner.compared = true,
            Want::Open(_) | Want::OpenInside => self.open()?,
            Want::Comma => {
                self.inner.commas = self.inner.commas.saturating_sub(1);
                self.inner.compared = false;
            }
            Want::Close => self.close(),
            _ => (),
        }
        self.named = want.is_name();
        Ok(())
    }

    /// Goes on over a token. Returns false, and stays, if no form takes it.
    pub fn step(&mut self, kind: TokenKind, bytes: &[u8]) -> Result<bool, AllocError> {
        for (place, want, next) in &ROWS {
            if *place == self.place && self.offers(*want) && self.takes(*want, kind, bytes) {
                self.note(*want, number_of(kind, bytes).unwrap_or(0), bytes)?;
                self.place = if *next == Place::Back {
                    self.back
                } else {
                    *next
                };
                return Ok(true);
            }
        }
        Ok(false)
    }

    /// Returns whether the line may end here.
    pub fn can_end(&self) -> bool {
        for (place, want, _) in &ROWS {
            if *place == self.place && matches!(want, Want::End) && self.offers(*want) {
                return true;
            }
        }
        false
    }
}
