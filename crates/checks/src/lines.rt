//! Lines of a register: places, serials, handles.

use kinds::Name;
use pool::Node;
use register::{Action, Parts, Refusal, Register, Reply};
use std::test::Fail;

/// Opens a line, and gives its place and serial; none where the call gives something else.
fn open_line(register: &mut Register<'_, Name>) -> Result<Option<(u32, u32)>, Refusal> {
    match register.perform(Action::Open)? {
        Reply::Handed(Parts { place, serial }) => Ok(Some((place, serial))),
        _ => Ok(None),
    }
}

/// Stows the line of this handle, or gives the number of the refusal.
fn stow(register: &mut Register<'_, Name>, place: u32, serial: u32, letter: u8) -> Result<(), u8> {
    register.perform(Action::Stow(Parts { place, serial }, letter))?;
    Ok(())
}

/// Fetches the line of the shelf, or gives the number of the refusal.
fn fetch(register: &mut Register<'_, Name>, letter: u8) -> Result<(), u8> {
    register.perform(Action::Fetch(letter))?;
    Ok(())
}

#[test]
fn sixty_four_lines_are_given(rt: HostRuntime) -> Result<(), Fail> {
    let mut nodes = [Node::default(); 4];
    let mut register: Register<'_, Name> = Register::new(&mut nodes, 10);
    for place in 0..64u32 {
        assert_eq!(rt; open_line(&mut register)?, Some((place, 10 + place)));
    }
    assert_eq!(rt; open_line(&mut register), Err(Refusal::LinesExhausted));
    assert_eq!(rt; register.tally().lines, 64);
    Ok(())
}

#[test]
fn serials_end(rt: HostRuntime) -> Result<(), Fail> {
    let mut nodes = [Node::default(); 4];
    let mut register: Register<'_, Name> = Register::new(&mut nodes, 4294967294);
    assert_eq!(rt; open_line(&mut register)?, Some((0, 4294967294)));
    assert_eq!(rt; open_line(&mut register), Err(Refusal::SerialsExhausted));
    let mut others = [Node::default(); 4];
    let mut register: Register<'_, Name> = Register::new(&mut others, 4294967295);
    assert_eq!(rt; open_line(&mut register), Err(Refusal::SerialsExhausted));
    Ok(())
}

#[test]
fn handles_fit_one_line_in_one_state(rt: HostRuntime) -> Result<(), Fail> {
    let mut nodes = [Node::default(); 4];
    let mut register: Register<'_, Name> = Register::new(&mut nodes, 1);
    assert_eq!(rt; open_line(&mut register)?, Some((0, 1)));
    assert_eq!(rt; stow(&mut register, 0, 2, b'A'), Err(1), "another serial");
    assert_eq!(rt; stow(&mut register, 1, 1, b'A'), Err(1), "another place");
    assert_eq!(rt; stow(&mut register, 64, 1, b'A'), Err(1), "no place");
    assert_eq!(rt;
        stow(&mut register, 0, 1, b'@'),
        Err(12),
        "the byte before A"
    );
    assert_eq!(rt;
        stow(&mut register, 0, 1, b'['),
        Err(12),
        "the byte after Z"
    );
    assert_eq!(rt; stow(&mut register, 0, 1, b'Z'), Ok(()));
    assert_eq!(rt; stow(&mut register, 0, 1, b'A'), Err(1), "stowed already");
    assert_eq!(rt; open_line(&mut register)?, Some((1, 2)));
    assert_eq!(rt; stow(&mut register, 1, 2, b'Z'), Err(13));
    assert_eq!(rt; fetch(&mut register, b'z'), Err(12));
    assert_eq!(rt; fetch(&mut register, b'A'), Err(14));
    assert_eq!(rt; fetch(&mut register, b'Z'), Ok(()));
    assert_eq!(rt; fetch(&mut register, b'Z'), Err(14));
    Ok(())
}
