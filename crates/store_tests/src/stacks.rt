// The stack, over elements of two types.
use stack::Stack;
use std::test::Fail;
use vocab::number::Number;
use vocab::refusal::Refusal;

#[test]
fn last_in_is_first_out(rt: HostRuntime) -> Result<(), Fail> {
    let mut room = [0u8; 3];
    let mut stack = Stack::new(&mut room);
    assert_eq!(rt; stack.pop(), None);
    for byte in *b"abc" {
        stack.push(byte)?;
        assert_eq!(rt; stack.top(), Some(byte));
    }
    for byte in *b"cba" {
        assert_eq!(rt; stack.pop(), Some(byte));
    }
    assert_eq!(rt; stack.pop(), None);
    assert_eq!(rt; stack.top(), None);
    Ok(())
}

#[test]
fn a_full_stack_stays_as_it_is(rt: HostRuntime) -> Result<(), Fail> {
    let mut room = [Number(0); 2];
    let mut stack = Stack::new(&mut room);
    stack.push(Number(7))?;
    stack.push(Number(8))?;
    assert_eq!(rt; stack.push(Number(9)), Err(Refusal::ListShort));
    assert_eq!(rt; stack.pop(), Some(Number(8)));
    stack.push(Number(5))?;
    assert_eq!(rt; stack.push(Number(9)), Err(Refusal::ListShort));
    assert_eq!(rt; stack.places(), 2);
    assert_eq!(rt; stack.pop(), Some(Number(5)));
    assert_eq!(rt; stack.pop(), Some(Number(7)));
    assert_eq!(rt; stack.pop(), None);
    Ok(())
}

#[test]
fn a_stack_without_places_takes_nothing(rt: HostRuntime) -> Result<(), Fail> {
    let mut stack = Stack::new(&mut []);
    assert_eq!(rt; stack.push(1u8), Err(Refusal::ListShort));
    assert_eq!(rt; stack.pop(), None);
    stack.clear();
    assert_eq!(rt; stack.places(), 0);
    Ok(())
}
