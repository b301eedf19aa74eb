//! Large configurations.

use crate::shown::{BASE, config_shown};
use cdc_config::plan_of;
use std::alloc::{AllocError, Global};
use std::test::Fail;

/// The most bytes of a configuration.
const TEXT_MAX: usize = 1_048_576;

/// The first and the last table of 4,000 rules, one behind them, and one of another database.
const TABLES: [(&str, &str); 4] = [("d", "0"), ("d", "3999"), ("d", "4000"), ("e", "0")];

// A plan's configuration and a comment, of so many bytes together.
fn commented(alloc: Global, length: usize) -> Result<String, AllocError> {
    let mut text = String::from_str(alloc, BASE)?;
    text.push_str("#")?;
    for _byte in text.len()..length {
        text.push_str("x")?;
    }
    Ok(text)
}

// A plan's configuration with so many rules, the greatest table first.
fn ruled(alloc: Global, rules: usize) -> Result<String, AllocError> {
    let mut text = String::from_str(alloc, BASE)?;
    text.push_str("table=[")?;
    for number in (0..rules).rev() {
        let rule = format!(in alloc; "{{db='d',table='{number}',to_db='e',to_table='f'}},")?;
        text.push_str(rule.as_str())?;
    }
    text.push_str("]")?;
    Ok(text)
}

#[test]
fn a_text_has_at_most_1_048_576_bytes(rt: HostRuntime) -> Result<(), Fail> {
    let text = commented(rt.alloc(), TEXT_MAX)?;
    assert_eq!(rt; text.len(), TEXT_MAX);
    assert_eq!(rt;
        config_shown(rt.alloc(), text.as_str())?.as_str(),
        "536870912 16777216 1 1 0 false"
    );
    let text = commented(rt.alloc(), TEXT_MAX + 1)?;
    assert_eq!(rt; config_shown(rt.alloc(), text.as_str())?.as_str(), "Toml");
    Ok(())
}

// Which of these tables of these databases a text's plan renames: `y` or `n` each.
fn found(alloc: Global, text: &str, tables: &[(&str, &str)]) -> Result<String, AllocError> {
    let mut found = String::new(alloc);
    if let Ok(plan) = plan_of(alloc, text.as_bytes()) {
        for (db, table) in tables {
            let rule = plan.names.find(db.as_bytes(), table.as_bytes());
            found.push_str(if rule.is_some() { "y" } else { "n" })?;
        }
    }
    Ok(found)
}

#[test]
fn thousands_of_rules_are_found(rt: HostRuntime) -> Result<(), Fail> {
    let text = ruled(rt.alloc(), 4_000)?;
    let found = found(rt.alloc(), text.as_str(), &TABLES)?;
    assert_eq!(rt; found.as_str(), "yynn");
    Ok(())
}
