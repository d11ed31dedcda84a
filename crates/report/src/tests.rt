// The longest input, and one byte more.
use crate::report::printed;
use std::test::Fail;

#[test]
fn refuses_an_input_that_is_too_long(rt: HostRuntime) -> Result<(), Fail> {
    let longest = vec![in rt.alloc(); b' '; 32_768]?;
    assert_eq!(rt;
        printed(rt.alloc(), longest.as_slice())?.as_str(),
        "(refused 7 1 0 F)\n"
    );
    let longer = vec![in rt.alloc(); b' '; 32_769]?;
    assert_eq!(rt;
        printed(rt.alloc(), longer.as_slice())?.as_str(),
        "(refused 10 0 0 E)\n"
    );
    Ok(())
}
