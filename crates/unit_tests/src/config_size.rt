use sim_config::{ConfigFault, ConfigRule, LONGEST_CONFIG, ListOf, TableNo, read_config};
use std::test::Fail;

fn broken(rule: ConfigRule) -> ConfigFault {
    ConfigFault::Broken {
        rule,
        table: TableNo::Top,
        key: None,
    }
}

#[test]
fn a_file_may_have_1048576_bytes_and_no_more(rt: HostRuntime) -> Result<(), Fail> {
    let alloc = rt.alloc();
    let comment = vec![in alloc; b'#'; LONGEST_CONFIG]?;
    match read_config(alloc, &comment) {
        Ok(_) => panic!(rt; "a comment is no plan"),
        Err(fault) => {
            let told = format!(in alloc; "{fault}")?;
            assert_eq!(rt; told.as_str(), "missing top version");
        }
    }
    let longer = vec![in alloc; b'#'; LONGEST_CONFIG + 1]?;
    assert_eq!(rt;
        read_config(alloc, &longer).err(),
        Some(broken(ConfigRule::TooLong))
    );
    Ok(())
}

#[test]
fn bytes_that_are_no_text_are_no_toml(rt: HostRuntime) {
    let text = b"version = 1 # \xff";
    assert_eq!(rt;
        read_config(rt.alloc(), text).err(),
        Some(broken(ConfigRule::NotToml))
    );
}

#[test]
fn a_list_gives_its_values_back(rt: HostRuntime) -> Result<(), Fail> {
    let list = ListOf::of(vec![in rt.alloc(); 3u32, 1]?);
    assert_eq!(rt; list.items(), [3, 1].as_slice());
    assert_eq!(rt; list.into_vec().as_slice(), [3, 1].as_slice());
    Ok(())
}

#[test]
fn a_plan_is_copied_compared_and_printed(rt: HostRuntime) -> Result<(), Fail> {
    let alloc = rt.alloc();
    let text =
        b"version = 1\npart = [{name = 'r0', kind = 'relay', period = 1000, to = 'r0', start = 2}]";
    match read_config(alloc, text) {
        Ok(plan) => {
            assert!(rt; plan.clone()? == plan);
            let told = format!(in alloc; "{:?}", plan.parts.items())?;
            assert_eq!(rt;
                told.as_str(),
                "[PartText { name: r0, period: 1000, buffer: 4, kind: Relay { to: r0, start: Some(2) } }]"
            );
        }
        Err(_) => panic!(rt; "a relay is a plan"),
    }
    Ok(())
}
