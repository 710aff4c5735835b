//! A style of the table, as a command names it.
ghost use Rattle.std.specs.Prelude.{◌≡◌};
ghost use Rattle.reuse_style.specs.Styles.{style_named};

use crate::style::Style;
use crate::table::TableStyle;
use std::marker::Model;

/// A style of the table, as a command names it. Contracts see the style.
#[derive(Debug, Drop)]
pub struct NamedStyle {
    style: TableStyle,
}

impl Model for NamedStyle {
    ghost use Rattle.reuse_style.specs.Marks.{GoodStyle};
    ghost use Rattle.reuse_style.specs.Styles.{table_style};

    ghost Value = { GoodStyle };

    ghost view = { λ named. table_style named.style };
}

impl NamedStyle {
    /// The one that has a name, if one has.
    pub fn of_name(name: &str) -> Option<NamedStyle>
        ensures { result ≡ style_named name.now }
    {
        match TableStyle::of_name(name) {
            None => None,
            Some(style) => Some(NamedStyle { style }),
        }
    }

    /// The style.
    pub fn style(&self) -> Style<'static>
        ensures { result ≡ self.now }
    {
        self.style.style()
    }
}
