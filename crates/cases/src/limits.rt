// Numbers at their limits, and lists of words past their ends.
use program::statement::{Input, Local, Reach, Task, Variable};
use std::array;
use std::test::Fail;
use words::list::Words;
use words::list::methods::Full;

// There are 48 variables, 8 locals, 8 words of a row and 16 tasks, numbered from 0.
#[test]
fn indices(rt: HostRuntime) {
    let last = [
        Variable::new(47).is_some(),
        Local::new(7).is_some(),
        Input::new(7).is_some(),
        Task::new(15).is_some(),
    ];
    assert_eq!(rt; last, [true; 4]);
    let past = [
        Variable::new(48).is_none(),
        Local::new(8).is_none(),
        Input::new(8).is_none(),
        Task::new(16).is_none(),
    ];
    assert_eq!(rt; past, [true; 4]);
}

// An index has the number that it is made of.
#[test]
fn index_numbers(rt: HostRuntime) {
    for number in 0..=u8::MAX {
        match Variable::new(number) {
            Some(variable) => assert_eq!(rt; variable.number(), number),
            None => assert!(rt; number >= 48),
        }
    }
}

// A skip passes over 1 to 15 statements.
#[test]
fn reaches(rt: HostRuntime) {
    for count in 0..=u8::MAX {
        match Reach::new(count) {
            Some(reach) => assert!(rt; (1..=15).contains(&count) && reach.count() == count),
            None => assert!(rt; count == 0 || 15 < count),
        }
    }
}

// The words at the first five places.
fn places(words: &Words<4>) -> [u16; 5] {
    array::from_fn(|place| words.get(place))
}

// Past the last word a list has 0, and a set alters nothing.
#[test]
fn past_the_last_word(rt: HostRuntime) -> Result<(), Fail> {
    let mut words = Words::<4>::new();
    words.push(5)?;
    words.push(6)?;
    words.set(2, 9);
    words.set(4, 9);
    words.set(usize::MAX, 9);
    assert_eq!(rt; words.len(), 2);
    assert_eq!(rt; places(&words), [5, 6, 0, 0, 0]);
    assert_eq!(rt; words.get(usize::MAX), 0);
    words.set(1, 8);
    assert_eq!(rt; places(&words), [5, 8, 0, 0, 0]);
    Ok(())
}

// A list takes as many words as it can hold; one more is refused and alters nothing.
#[test]
fn full_list(rt: HostRuntime) {
    let mut words = Words::<4>::new();
    for word in 1..=4 {
        assert_eq!(rt; words.push(word), Ok(()));
    }
    assert_eq!(rt; words.push(9), Err(Full));
    assert_eq!(rt; words.len(), 4);
    assert_eq!(rt; places(&words), [1, 2, 3, 4, 0]);
}
