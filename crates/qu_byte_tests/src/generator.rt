use qu_gen::gen_script;
use qu_testing::all_hold;
use std::test::Fail;

#[test]
fn the_script_of_a_number(rt: HostRuntime) -> Result<(), Fail> {
    let script = gen_script(rt.alloc(), 1)?;
    is_that_of_1(script.as_slice())
}

fn is_that_of_1(script: &[u8]) -> Result<(), Fail> {
    let text = str::from_utf8(script)?;
    all_hold(&[
        (text.lines().count() == 3252, "3,252 lines"),
        (text.lines().nth(1) == Some("seed 1"), "its number"),
        (
            text.lines().nth(12) == Some("call 1 add 1 1"),
            "the first call",
        ),
    ])
}
