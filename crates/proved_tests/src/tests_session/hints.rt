//! What is printed of a folder without hints, the name of a hint's file, and how changes are asked
//! for.

use hint_file::{file_name, state_lines};
use kept_changes::changes_ask;
use pir_schemes::{Plan, Scheme};
use std::test::Fail;

#[test]
fn no_hint_has_a_line_and_a_hint_has_its_name(rt: HostRuntime) -> Result<(), Fail> {
    assert_eq!(rt; state_lines(rt.alloc(), &[])?.as_str(), "hint none\n");
    let plan = Plan {
        form: 1,
        width: 8,
        record_len: 2,
        groups: 2,
        dimension: 3,
        seed: [9; 32],
    };
    // By Python: hashlib.sha256(struct.pack('<HBHHH', 1, 8, 2, 2, 3) + bytes([9]) * 32).hexdigest()
    assert_eq!(rt;
        file_name(rt.alloc(), Scheme::Simple, &plan)?.as_str(),
        "simple-9aca3029b88ac42914783b07b96b67549227eac132034e1baba2fc58ce654e2d.hint"
    );
    Ok(())
}

#[test]
fn an_ask_is_written(rt: HostRuntime) -> Result<(), Fail> {
    assert_eq!(rt;
        changes_ask(rt.alloc(), 5)?.as_slice(),
        [8, 0, 0, 0, 0x0a, 5, 0, 0, 0, 0, 0, 0, 0].as_slice()
    );
    Ok(())
}
