//! Whole plans, with their texts.

use crate::shown::BASE;
use cdc_base::{Rename, Text, User};
use cdc_config::{Paths, Plan, SplitPlan, paths, plan_of};
use std::alloc::{AllocError, Global};
use std::test::Fail;

// A plan with everything, with carriage returns and comments.
const WHOLE: &str = "# all keys\r
rotation = 1_024\r
[[node]]\r
files = ['a', \"b\"] # two\r
[[node]]\r
files = ['c']\r
[[out]]\r
folder = 'o'\r
[[out]]\r
folder = 'p'\r
listen = 'h:1'\r
[task]\r
folder = 't'\r
[[table]]\r
db = 'd1'\r
table = 't1'\r
to_db = 'shop'\r
to_table = 'orders'\r
[[user]]\r
name = 'r'\r
hash = '00000000000000000000000000000000000000fF'\r
[split]\r
from = 2\r
folders = ['x', 'y', 'z']\r
";

// The texts, with a comma behind each, behind what is there.
fn put_joined(texts: &[Text], into: &mut String) -> Result<(), AllocError> {
    for text in texts {
        into.push_str(text.as_str())?;
        into.push_str(",")?;
    }
    into.push_str(" ")
}

// The paths of a text's plan.
fn paths_of(alloc: Global, text: &str) -> Result<Paths, Fail> {
    match plan_of(alloc, text.as_bytes()) {
        Ok(plan) => Ok(paths(alloc, &plan)?),
        Err(_) => Err(Fail::from("refused")),
    }
}

// Paths: the outs' folders, where they listen, the task's folder, and the files of each node.
fn put_paths(paths: &Paths, into: &mut String) -> Result<(), AllocError> {
    put_joined(paths.out_folders.as_slice(), into)?;
    put_joined(paths.listen.as_slice(), into)?;
    into.push_str(paths.task_folder.as_str())?;
    for files in paths.node_files.as_slice() {
        into.push_str(" ")?;
        put_joined(files.as_slice(), into)?;
    }
    Ok(())
}

// What tables are renamed to.
fn put_rule(rule: Option<&Rename>, into: &mut String) -> Result<(), AllocError> {
    match rule {
        Some(rule) => {
            into.push_str(rule.to_db.as_str())?;
            into.push_str(".")?;
            into.push_str(rule.to_table.as_str())?;
        }
        None => into.push_str("none")?,
    }
    into.push_str(" ")
}

// Each user's name, and the first and the last byte of its hash.
fn put_users(alloc: Global, users: &[User], into: &mut String) -> Result<(), AllocError> {
    for user in users {
        into.push_str(user.name.as_str())?;
        let hash = user.hash.unwrap_or([7; 20]);
        into.push_str(format!(in alloc; " {} {} ", hash[0], hash[19])?.as_str())?;
    }
    Ok(())
}

// From where on an out is split, and into which folders.
fn put_split(
    alloc: Global,
    split: Option<&SplitPlan>,
    into: &mut String,
) -> Result<(), AllocError> {
    match split {
        Some(split) => {
            into.push_str(format!(in alloc; "{} ", split.from)?.as_str())?;
            put_joined(split.folders.as_slice(), into)
        }
        None => into.push_str("none"),
    }
}

// A plan: rotation, nodes and outs; what two tables are renamed to; users; the split.
fn put_plan(alloc: Global, plan: &Plan, into: &mut String) -> Result<(), AllocError> {
    let numbers = format!(in alloc; "{} {} {} ", plan.rotation, plan.nodes, plan.outs)?;
    into.push_str(numbers.as_str())?;
    put_rule(plan.names.find(b"d1", b"t1"), into)?;
    put_rule(plan.names.find(b"d1", b"t2"), into)?;
    put_users(alloc, plan.users.as_slice(), into)?;
    put_split(alloc, plan.split.as_ref(), into)
}

// A text's plan, or why there is none, behind what is there.
fn put_answer(alloc: Global, text: &[u8], into: &mut String) -> Result<(), AllocError> {
    match plan_of(alloc, text) {
        Ok(plan) => put_plan(alloc, &plan, into),
        Err(refusal) => into.push_str(format!(in alloc; "{refusal:?}")?.as_str()),
    }
}

#[test]
fn a_plan_has_its_paths(rt: HostRuntime) -> Result<(), Fail> {
    let paths = paths_of(rt.alloc(), WHOLE)?;
    let mut shown = String::new(rt.alloc());
    put_paths(&paths, &mut shown)?;
    assert_eq!(rt; shown.as_str(), "o,p, ,h:1, t a,b,  c, ");
    Ok(())
}

#[test]
fn a_plan_has_its_names_users_and_split(rt: HostRuntime) -> Result<(), Fail> {
    let mut shown = String::new(rt.alloc());
    put_answer(rt.alloc(), WHOLE.as_bytes(), &mut shown)?;
    assert_eq!(rt;
        shown.as_str(),
        "1024 2 2 shop.orders none r 0 255 2 x,y,z, "
    );
    Ok(())
}

#[test]
fn what_is_no_text_is_refused(rt: HostRuntime) -> Result<(), Fail> {
    let mut shown = String::new(rt.alloc());
    put_answer(rt.alloc(), BASE.as_bytes(), &mut shown)?;
    shown.push_str("; ")?;
    put_answer(rt.alloc(), b"# \xff\n", &mut shown)?;
    assert_eq!(rt;
        shown.as_str(),
        "536870912 1 1 none none none; Config(Toml)"
    );
    Ok(())
}
