//! Places of a line, and what they want.

/// A place of a line: before its first token, or after a token.
#[derive(Clone, Copy, PartialEq, Eq)]
pub enum Place {
    // Policies
    Statement,
    Version,
    Transaction,
    Variable,
    Low,
    Dots,
    High,
    FirstIs,
    First,
    Push,
    Pop,
    Is,
    Class,
    ClassMore,
    Leaf,
    Node,
    Using,
    Used,
    Settings,
    ClassFirst,
    ClassNext,
    ChildFirst,
    ChildNext,
    Prio,
    Weight,
    Slack,
    Limit,
    PerFlow,
    By,
    Keys,
    /// The place where a setting began.
    Back,
    Test,
    FieldLow,
    FieldDots,
    FieldHigh,
    SetLow,
    SetDots,
    SetHigh,
    SetNext,
    And,
    FirstOctet,
    FirstDot,
    SecondOctet,
    SecondDot,
    ThirdOctet,
    ThirdDot,
    FourthOctet,
    Slash,
    Prefix,
    LongSlash,
    LongPrefix,
    Value,
    ValueMore,
    ValueNext,
    ValueEnd,
    Mask,
    MaskMore,
    MaskNext,
    // Expressions
    Operand,
    Opening,
    After,
    // Scripts
    Step,
    Count,
    // Maps
    Map,
    MapName,
    Address,
    AddressDot,
    AddressNumber,
    // Topologies
    Tree,
    TreeNext,
    // All texts
    Last,
    Done,
}

/// What a place wants.
#[derive(Clone, Copy)]
pub enum Want {
    /// This word.
    Word(&'static str),
    /// This word or mark, in version 3.
    Later(&'static str),
    /// The first word of a statement.
    Start(&'static str),
    /// The first word of a step of a script.
    Step(&'static str),
    /// An attribute that isn't written yet.
    Attribute(&'static str),
    /// A limit, if the version has one here, and one is left.
    Limit,
    /// The number of a limit.
    Bound,
    /// What a limit counts, right after its number, in version 3.
    Unit(&'static str),
    /// The header fields by which flows are told apart, in version 3, if they aren't written yet.
    Flow,
    /// The source address of these fields.
    Source,
    /// The destination address, right after the source address.
    Target,
    /// The word before the classes of a leaf.
    Classes,
    /// The word before the children of a node.
    Children,
    /// The first word of a condition, and the greatest number after it.
    Field(&'static str, u64),
    /// The same in version 3.
    LaterField(&'static str, u64),
    /// The negation of a condition, in version 3.
    Not,
    /// A protocol, if the field is one.
    Protocol(&'static str),
    /// The comma in a set.
    Next,
    /// An IPv6 address, in version 3.
    LongAddress,
    /// A TCP flag that isn't written yet.
    Flag,
    /// The word for no TCP flags, if the value has none.
    NoFlags,
    /// The mark between the value and the mask of TCP flags.
    Over,
    /// A word for a number in expressions.
    Variable(&'static str),
    /// A function, and its number of commas.
    Call(&'static str, u32),
    /// The name of this.
    Name(&'static str),
    /// The name of a variable in an expression.
    Operand,
    /// A number in this range.
    Number(u64, u64),
    /// A number that begins a range.
    Low,
    /// A number in the range so far.
    High,
    /// This mark.
    Sign(&'static str),
    /// An arithmetic operator.
    Operator(&'static str),
    /// A comparison, at most one in the same parentheses.
    Relation(&'static str),
    /// An opening parenthesis, if fewer than this are open.
    Open(usize),
    /// The comma of a function.
    Comma,
    /// A closing parenthesis, if one is open.
    Close,
    /// This word, if a parenthesis is open.
    Inside(&'static str),
    /// An opening parenthesis, if another is open.
    OpenInside,
    /// The end of the line, if no parenthesis is open.
    End,
}

impl Want {
    /// Returns the text that every such token has, if there is one.
    fn fixed(self) -> Option<&'static str> {
        match self {
            Want::Limit => Some("limit"),
            Want::Flow => Some("flow"),
            Want::Source => Some("src"),
            Want::Target => Some("dst"),
            Want::Classes => Some("classes"),
            Want::Children => Some("children"),
            Want::Not => Some("not"),
            Want::NoFlags => Some("none"),
            Want::Over => Some("/"),
            Want::Open(_) | Want::OpenInside => Some("("),
            Want::Comma | Want::Next => Some(","),
            Want::Close => Some(")"),
            _ => None,
        }
    }

    /// Returns the text of a token that messages describe.
    fn described_text(self) -> Option<&'static str> {
        match self {
            Want::Start(text)
            | Want::Step(text)
            | Want::Field(text, _)
            | Want::LaterField(text, _)
            | Want::Variable(text)
            | Want::Call(text, _)
            | Want::Operator(text)
            | Want::Relation(text) => Some(text),
            _ => self.fixed(),
        }
    }

    /// Returns the text that is wanted, if there is only one.
    pub fn text(self) -> Option<&'static str> {
        match self {
            Want::Word(text)
            | Want::Later(text)
            | Want::Attribute(text)
            | Want::Unit(text)
            | Want::Protocol(text)
            | Want::Sign(text)
            | Want::Inside(text) => Some(text),
            _ => self.described_text(),
        }
    }

    /// Returns what messages call the wanted token, if it isn't shown as it is written.
    pub fn described(self) -> Option<&'static str> {
        Some(match self {
            Want::Name(what) => what,
            Want::Start(_) => "a statement",
            Want::Step(_) => "a step",
            Want::Field(..) | Want::LaterField(..) => "a condition",
            Want::LongAddress => "an IPv6 address",
            Want::Flag => "a TCP flag",
            Want::Variable(_) | Want::Operand => "a variable",
            Want::Call(..) => "a function",
            Want::Number(..) | Want::Low | Want::High | Want::Bound => "a number",
            Want::Operator(_) => "an arithmetic operator",
            Want::Relation(_) => "a comparison",
            Want::End => "the end of the line",
            _ => return None,
        })
    }

    /// Returns what messages call the wanted token.
    pub fn label(self) -> &'static str {
        match self.described() {
            Some(what) => what,
            None => self.text().unwrap_or(""),
        }
    }

    /// Returns whether a name is wanted.
    pub fn is_name(self) -> bool {
        matches!(self, Want::Name(_) | Want::Operand)
    }

    /// Returns whether a number is wanted.
    pub fn is_number(self) -> bool {
        matches!(
            self,
            Want::Number(..) | Want::Low | Want::High | Want::Bound
        )
    }

    /// Returns whether only version 3 has what is wanted.
    pub fn is_later(self) -> bool {
        matches!(
            self,
            Want::Later(_)
                | Want::LaterField(..)
                | Want::Unit(_)
                | Want::Flow
                | Want::Target
                | Want::Not
                | Want::LongAddress
        )
    }
}
