// The repair that is due, one case a row of its table.
ghost use Rattle.std.specs.Prelude.{◌≡◌, length};

use px_indexrow::{ChangeFate, Repair, Told, Version, verdict};
use px_values::Items;
use std::test::Fail;

/// The key in doubt, and another one.
const KEY: [u8; 2] = [1, 2];

const OTHER: [u8; 2] = [1, 3];

/// Whether this is the repair of a version at KEY, where the horizon is 10 and the floor 5.
fn is_due(
    stamp: u64,
    values: &[Option<Items<u8>>],
    fate: ChangeFate,
    new_key: Option<&[u8]>,
    horizon_key: Option<&[u8]>,
    horizon_values: &[Option<Items<u8>>],
    repair: Repair,
) -> bool
    requires { length values.now ≡ length horizon_values.now }
{
    let version = Version {
        key: &KEY,
        stamp,
        values,
    };
    let told = Told {
        fate,
        new_key,
        horizon: 10,
        horizon_key,
        horizon_values,
        floor: 5,
    };
    verdict(&version, &told) == repair
}

#[test]
fn each_case_has_its_repair(rt: HostRuntime) -> Result<(), Fail> {
    let seen = [Some(Items::of(vec![in rt.alloc(); 7u8]?)), None];
    let same = [Some(Items::of(vec![in rt.alloc(); 7u8]?)), None];
    let less = [None, None];
    let key = Some(&KEY[..]);
    let other = Some(&OTHER[..]);
    assert!(rt;
        is_due(
            11,
            &seen,
            ChangeFate::Undecided,
            key,
            key,
            &same,
            Repair::Leave
        )
    );
    assert!(rt;
        is_due(
            9,
            &seen,
            ChangeFate::Undecided,
            key,
            key,
            &same,
            Repair::Leave
        )
    );
    assert!(rt;
        is_due(
            11,
            &seen,
            ChangeFate::Written,
            key,
            other,
            &less,
            Repair::Verify
        )
    );
    assert!(rt;
        is_due(
            11,
            &seen,
            ChangeFate::Written,
            other,
            key,
            &same,
            Repair::Retire
        )
    );
    assert!(rt;
        is_due(
            11,
            &seen,
            ChangeFate::Written,
            None,
            key,
            &same,
            Repair::Retire
        )
    );
    assert!(rt; is_due(11, &seen, ChangeFate::Lost, key, key, &same, Repair::Erase));
    assert!(rt;
        is_due(
            10,
            &seen,
            ChangeFate::Written,
            key,
            other,
            &same,
            Repair::Retire
        )
    );
    assert!(rt;
        is_due(
            10,
            &seen,
            ChangeFate::Lost,
            key,
            None,
            &same,
            Repair::Retire
        )
    );
    assert!(rt;
        is_due(
            10,
            &seen,
            ChangeFate::Lost,
            None,
            key,
            &same,
            Repair::Verify
        )
    );
    assert!(rt;
        is_due(
            6,
            &seen,
            ChangeFate::Written,
            key,
            key,
            &less,
            Repair::Erase
        )
    );
    assert!(rt;
        is_due(
            5,
            &seen,
            ChangeFate::Written,
            key,
            key,
            &less,
            Repair::Verify
        )
    );
    Ok(())
}
