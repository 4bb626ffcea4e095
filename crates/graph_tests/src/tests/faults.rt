// The order of faults.
use go_base::{Pos, Rule};
use go_faults::{Fault, Least};
use std::test::Fail;

fn fault(phase: u8, package: u32, file: u32, offset: u32, rule: Rule) -> Fault {
    Fault {
        phase,
        package,
        pos: Pos { file, offset },
        rule,
    }
}

#[test]
fn names_the_least_fault(rt: HostRuntime) -> Result<(), Fail> {
    let first = fault(2, 1, 3, 40, Rule::Undefined);
    let others = [
        fault(3, 0, 0, 0, Rule::RedeclaredInThisBlock),
        fault(2, 2, 0, 0, Rule::RedeclaredInThisBlock),
        fault(2, 1, 4, 0, Rule::RedeclaredInThisBlock),
        fault(2, 1, 3, 41, Rule::RedeclaredInThisBlock),
        fault(2, 1, 3, 40, Rule::WrongKindOfName),
    ];
    let mut least = Least::new();
    assert!(rt; least.fault.is_none());
    for other in others {
        assert!(rt; first.comes_before(other));
        assert!(rt; !other.comes_before(first));
        least.report(other);
    }
    least.report(first);
    for other in others {
        least.report(other);
    }
    assert_eq!(rt; least.fault, Some(first));
    Ok(())
}
