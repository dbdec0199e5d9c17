//! The rows of a table.

use crate::error::TableError;
use crate::field::{add_value, has_field};
use std::alloc::{AllocError, Global};
use std::fmt;

/// A row of a table.
#[derive(Clone, Copy, Debug)]
pub struct Row<'a> {
    group: &'a str,
    name: &'a str,
    shared: &'a str,
    own: &'a str,
}

/// The rows of a table, in its order.
pub fn rows<'a>(alloc: Global, table: &'a str) -> Result<Vec<Row<'a>>, AllocError> {
    let mut rows = Vec::new(alloc);
    for group in table.split("\n== ").skip(1) {
        add_rows(group, &mut rows)?;
    }
    Ok(rows)
}

fn add_rows<'a>(group: &'a str, rows: &mut Vec<Row<'a>>) -> Result<(), AllocError> {
    let (head, _) = group.split_once("\n-- ").unwrap_or((group, ""));
    let (group_name, shared) = head.split_once('\n').unwrap_or((head, ""));
    for row in group.split("\n-- ").skip(1) {
        let (name, own) = row.split_once('\n').unwrap_or((row, ""));
        rows.push(Row {
            group: group_name,
            name,
            shared,
            own,
        })?;
    }
    Ok(())
}

impl Row<'_> {
    /// Whether there is such a field.
    pub fn has(&self, key: &str) -> bool {
        has_field(self.own, key) || has_field(self.shared, key)
    }

    /// The value of the field.
    pub fn bytes(&self, alloc: Global, key: &'static str) -> Result<Vec<u8>, TableError> {
        let mut value = Vec::new(alloc);
        if add_value(self.own, key, &mut value)? || add_value(self.shared, key, &mut value)? {
            Ok(value)
        } else {
            Err(TableError::Missing(key))
        }
    }

    /// The value of the field, as a text.
    pub fn text(&self, alloc: Global, key: &'static str) -> Result<String, TableError> {
        let bytes = self.bytes(alloc, key)?;
        String::from_utf8(bytes).map_err(|_| TableError::NoText(key))
    }

    /// The value of the field, as a number.
    pub fn number(&self, alloc: Global, key: &'static str) -> Result<u32, TableError> {
        let text = self.text(alloc, key)?;
        text.as_str().parse().map_err(|_| TableError::NoNumber(key))
    }
}

/// A row is shown as its names.
impl fmt::Display for Row<'_> {
    fn fmt<W: fmt::Write>(&self, f: &mut fmt::Formatter<W>) -> fmt::Result {
        let group = self.group;
        let name = self.name;
        write!(f, "{group} {name}")
    }
}
