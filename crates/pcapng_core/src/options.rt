//! The options of an interface, read option by option.
ghost use Rattle.std.specs.Prelude.{◌≡◌, ◌≤◌, ◌<◌, ◌+◌, ◌-◌, length, vec_len, IfOk, IsErrOf, IsTrue};
ghost use Rattle.outside_core.specs.Faults.{Rose};
ghost use Rattle.pcap_core.specs.Rest.{rest_of, Serves};
ghost use Rattle.pcap_core.specs.Held.{held};
ghost use Rattle.pcapng_defs.specs.Interface;
ghost use Rattle.pcap_core.specs.Passed.{Passes};
ghost use Rattle.pcapng_core.specs.Options.{step_rest, FitsIn, GoesDown, StandsAt, IsUnitOf, FrontOf};

use outside_core::{Shelf, ShelfError};
use pcap_core::{Window, read_short};
use pcapng_defs::Unit;

const USUAL_UNIT: Unit = Unit::Decimal(6);

const UNIT_CODE: u16 = 9;

/// The length in bytes of an option before its value.
const OPTION_LEN: usize = 4;

/// The front of options.
#[derive(Clone, Copy)]
pub enum Front {
    Ends,
    Unit,
    /// Another option, with this many bytes after its first four.
    Other(usize),
}

/// Parses the first four bytes of an option, with `behind` bytes of options after them.
fn front_in(big: bool, bytes: &[u8], behind: usize) -> Front
    requires { length bytes.now ≡ 4 }
    ensures front { FrontOf big bytes.now behind result }
    ensures fits { FitsIn behind result }
{
    let code = read_short(big, bytes, 0);
    let len = read_short(big, bytes, 2);
    let filled = (usize::from(len) + 3) / 4 * 4;
    if code == 0 || filled > behind {
        Front::Ends
    } else if code == UNIT_CODE && len == 1 {
        Front::Unit
    } else {
        Front::Other(filled)
    }
}

/// Returns the unit of an option's value.
fn unit_by(value: u8) -> Unit
    ensures { result ≡ Interface.unit_by value }
{
    if value < 128 {
        Unit::Decimal(value)
    } else {
        Unit::Binary(value % 128)
    }
}

/// The result of reading an option, with the number of bytes of options that are left.
#[derive(Clone, Copy)]
pub enum Step {
    /// The options end, or the file does.
    Ends(usize),
    /// The option gives the unit.
    Gives(Unit, usize),
    /// There was another option.
    Passes(usize),
}

/// Reads the option at the front of `count` bytes of options.
fn read_option<S: Shelf>(
    window: &mut Window,
    shelf: &mut S,
    option: &mut Vec<u8>,
    big: bool,
    count: usize,
) -> Result<Step, ShelfError>
    requires some { 4 ≤ count }
    requires begun { IsTrue (S.begun shelf.old) }
    ensures bound { IfOk result (λ step. GoesDown count step) }
    ensures passed { IfOk result (λ step. Passes (count - step_rest step)
        (rest_of (held window.old) (S.left shelf.old))
        (rest_of (held window.new) (S.left shelf.new))) }
    ensures step { IfOk result (λ step. StandsAt big count (rest_of (held window.old)
        (S.left shelf.old)) step) }
    ensures shelf { Serves S.lends S.content S.begun S.faults shelf.old shelf.new }
    ensures cause { IsErrOf result ShelfError.Failed → Rose (S.faults shelf.old)
        (S.faults shelf.new) }
{
    option.clear();
    window.take(shelf, option, OPTION_LEN)?;
    if option.len() < OPTION_LEN {
        return Ok(Step::Ends(count - option.len()));
    }
    let behind = count - OPTION_LEN;
    match front_in(big, option, behind) {
        Front::Ends => Ok(Step::Ends(behind)),
        Front::Unit => {
            window.take(shelf, option, OPTION_LEN + 1)?;
            match option.get(OPTION_LEN) {
                Some(value) => Ok(Step::Gives(unit_by(*value), behind - 1)),
                None => Ok(Step::Ends(behind)),
            }
        }
        Front::Other(filled) => {
            let passed = window.pass(shelf, filled)?;
            Ok(Step::Passes(behind - passed))
        }
    }
}

/// Reads the unit that `count` bytes of options give. Returns it and how many of these bytes are
/// left.
pub fn read_unit<S: Shelf>(
    window: &mut Window,
    shelf: &mut S,
    option: &mut Vec<u8>,
    big: bool,
    count: usize,
) -> Result<(Unit, usize), ShelfError>
    requires begun { IsTrue (S.begun shelf.old) }
    ensures bound { IfOk result (λ told. told.1 ≤ count) }
    ensures passed { IfOk result (λ told. Passes (count - told.1)
        (rest_of (held window.old) (S.left shelf.old))
        (rest_of (held window.new) (S.left shelf.new))) }
    ensures unit { IfOk result (λ told. IsUnitOf big count (rest_of (held window.old)
        (S.left shelf.old)) told.0) }
    ensures shelf { Serves S.lends S.content S.begun S.faults shelf.old shelf.new }
    ensures cause { IsErrOf result ShelfError.Failed → Rose (S.faults shelf.old)
        (S.faults shelf.new) }
{
    let mut rest = count;
    while rest >= OPTION_LEN {
        match read_option(window, shelf, option, big, rest)? {
            Step::Ends(behind) => return Ok((USUAL_UNIT, behind)),
            Step::Gives(unit, behind) => return Ok((unit, behind)),
            Step::Passes(behind) => rest = behind,
        }
    }
    Ok((USUAL_UNIT, rest))
}
