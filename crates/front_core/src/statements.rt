//! The forms of statements.
use policy_text_defs::Edition;
use report_core::FaultKind;

/// Returns the form of a policy's statement with this first word.
fn policy_form(word: &[u8]) -> Option<&'static str> {
    Some(match word {
        b"policy" => "policy 1, policy 2 or policy 3",
        b"transaction" => "transaction NAME",
        b"keep" => "keep NAME LOW..HIGH = FIRST",
        b"each" => "each NAME LOW..HIGH = FIRST",
        b"push" => "push NAME = EXPR, or push rank = EXPR",
        b"pop" => "pop NAME = EXPR",
        b"class" => "class NAME [prio N] [weight N] [slack N] [when CONDITION {and CONDITION}]",
        b"leaf" => {
            "leaf NAME using TRANSACTION [prio N] [weight N] [slack N] [limit N] classes NAME {NAME}"
        }
        b"node" => {
            "node NAME using TRANSACTION [prio N] [weight N] [slack N] children NAME {NAME}"
        }
        _ => return None,
    })
}

/// Returns the form of a statement of version 3 with this first word, if the versions before have
/// another one.
fn third_form(word: &[u8]) -> Option<&'static str> {
    match word {
        b"class" => Some(
            "class NAME [prio N] [weight N] [slack N] [when ALL {or ALL}], where ALL is TEST {and TEST}
  TEST: after [not], FIELD R, FIELD `{R, R, ..}`, src ADDRESS, dst ADDRESS, tcpflags VALUE/MASK, ipv4 or ipv6, where R is N or LOW..HIGH
  FIELD: vlan, pcp, ethertype, dscp, proto, sport, dport or len",
        ),
        b"leaf" => Some(
            "leaf NAME using TRANSACTION {SETTING} classes NAME {NAME}
  SETTING: prio N, weight N, slack N, limit N [packets], limit N bytes, limit N per flow, or flow by src, dst, src dst or 5tuple",
        ),
        b"node" => Some(
            "node NAME using TRANSACTION {SETTING} children NAME {NAME}
  SETTING: prio N, weight N, slack N, limit N [packets], limit N bytes, limit N per flow, or flow by src, dst, src dst or 5tuple",
        ),
        _ => None,
    }
}

/// Returns the form of a statement with this first word, in a text of this kind and edition.
pub fn statement_form(kind: FaultKind, edition: Edition, word: &[u8]) -> Option<&'static str> {
    match kind {
        FaultKind::Policy if edition == Edition::Third => match third_form(word) {
            Some(form) => Some(form),
            None => policy_form(word),
        },
        FaultKind::Policy => policy_form(word),
        FaultKind::Target => Some("arity = N and height = N, or arities = [N, ..]"),
        FaultKind::Script => Some("a N, d N, rest or drain"),
        FaultKind::Tree => Some("leaf, or one or more trees in parentheses"),
        FaultKind::Map => Some("map NAME ADDRESS"),
        _ => None,
    }
}
