//! Messages of errors, and lists.
use rma_base::{NameError, RankSetError, Sequence};
use rma_io::OpenFault;
use std::alloc::Global;
use std::test::Fail;

#[test]
fn messages_of_errors_say_whether_memory_ran_out(rt: HostRuntime) -> Result<(), Fail> {
    let alloc = rt.alloc();
    for (error, message) in [(NameError::Bad, "refused"), (NameError::Memory, "memory")] {
        assert!(rt; error.to_string(alloc)?.as_str() == message);
    }
    for (error, message) in [
        (RankSetError::Repeated, "refused"),
        (RankSetError::Memory, "memory"),
    ] {
        assert!(rt; error.to_string(alloc)?.as_str() == message);
    }
    for (error, message) in [
        (OpenFault::Failed, "refused"),
        (OpenFault::Memory, "memory"),
    ] {
        assert!(rt; error.to_string(alloc)?.as_str() == message);
    }
    Ok(())
}

/// A list of three items, of which the one in the middle was set.
fn list(alloc: Global) -> Result<Sequence<i32>, Fail> {
    let mut list = Sequence::new(alloc);
    for item in [4, 7, 9] {
        list.push(item)?;
    }
    if list.as_slice() != [4, 7, 9].as_slice() {
        return Err(Fail::from("other items"));
    }
    *list.get_mut(1) = 8;
    Ok(list)
}

#[test]
fn items_of_a_list_are_pushed_set_and_copied(rt: HostRuntime) -> Result<(), Fail> {
    let list = list(rt.alloc())?;
    assert!(rt; list.copy()?.as_slice() == [4, 8, 9].as_slice());
    Ok(())
}
