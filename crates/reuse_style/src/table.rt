//! The styles of the table, and the names of files that it gives a style.
ghost use Rattle.std.specs.Prelude.{◌≡◌, ◌==◌, find, map};
ghost use Rattle.std.specs.Option.{option_map};
ghost use Rattle.std.specs.Str.{bytes_eq, str_eq_ignore_ascii_case};
ghost use Rattle.reuse_style.specs.MarkViews.{line_view, block_view, comments_view};
ghost use Rattle.reuse_style.specs.Names.{lookup, kind_of_name, table_kind, table_of_names, from_last, dot};
ghost use Rattle.reuse_style.specs.Styles.{table_styles, table_style, table_name, table_marks, table_line, table_block};
ghost use Rattle.reuse_style.specs.Styles.{table_punctuation, table_declaration};

use crate::marks::{BlockComment, Comments, Declaration, LineComment};
use crate::style::{Kind, Style};
use memchr::memrchr;
use reuse_text::last_part;

/// A comment style of the table.
#[derive(Clone, Copy, Debug, PartialEq, Eq)]
pub enum TableStyle {
    /// `#`.
    Python,
    /// `//`, or `/*` and `*/`.
    C,
    /// `/*` and `*/` alone.
    Css,
    /// `<!--` and `-->` alone.
    Html,
    /// `--`.
    Haskell,
    /// `%`.
    Tex,
    /// `;`, and twice before a tag.
    Lisp,
    /// `;`.
    Semicolon,
    /// `(*` and `*)` alone.
    Ml,
    /// `"`.
    Vim,
}

/// What the table says of a name.
#[derive(Clone, Copy, Debug)]
pub enum TableKind {
    /// The file has comments of this style.
    Style(TableStyle),
    /// The file can hold no comment.
    Uncommentable,
}

/// The file names and endings of names that have a known kind.
pub const NAMES: [(&[u8], TableKind); 58] = [
    (b".py", TableKind::Style(TableStyle::Python)),
    (b".sh", TableKind::Style(TableStyle::Python)),
    (b".bash", TableKind::Style(TableStyle::Python)),
    (b".rb", TableKind::Style(TableStyle::Python)),
    (b".pl", TableKind::Style(TableStyle::Python)),
    (b".yaml", TableKind::Style(TableStyle::Python)),
    (b".yml", TableKind::Style(TableStyle::Python)),
    (b".toml", TableKind::Style(TableStyle::Python)),
    (b".cmake", TableKind::Style(TableStyle::Python)),
    (b".mk", TableKind::Style(TableStyle::Python)),
    (b"Makefile", TableKind::Style(TableStyle::Python)),
    (b"Dockerfile", TableKind::Style(TableStyle::Python)),
    (b"CMakeLists.txt", TableKind::Style(TableStyle::Python)),
    (b".gitignore", TableKind::Style(TableStyle::Python)),
    (b".c", TableKind::Style(TableStyle::C)),
    (b".h", TableKind::Style(TableStyle::C)),
    (b".cc", TableKind::Style(TableStyle::C)),
    (b".cpp", TableKind::Style(TableStyle::C)),
    (b".hpp", TableKind::Style(TableStyle::C)),
    (b".rs", TableKind::Style(TableStyle::C)),
    (b".go", TableKind::Style(TableStyle::C)),
    (b".java", TableKind::Style(TableStyle::C)),
    (b".js", TableKind::Style(TableStyle::C)),
    (b".ts", TableKind::Style(TableStyle::C)),
    (b".kt", TableKind::Style(TableStyle::C)),
    (b".swift", TableKind::Style(TableStyle::C)),
    (b".scala", TableKind::Style(TableStyle::C)),
    (b".php", TableKind::Style(TableStyle::C)),
    (b".css", TableKind::Style(TableStyle::Css)),
    (b".html", TableKind::Style(TableStyle::Html)),
    (b".htm", TableKind::Style(TableStyle::Html)),
    (b".xml", TableKind::Style(TableStyle::Html)),
    (b".md", TableKind::Style(TableStyle::Html)),
    (b".hs", TableKind::Style(TableStyle::Haskell)),
    (b".lua", TableKind::Style(TableStyle::Haskell)),
    (b".sql", TableKind::Style(TableStyle::Haskell)),
    (b".tex", TableKind::Style(TableStyle::Tex)),
    (b".sty", TableKind::Style(TableStyle::Tex)),
    (b".cls", TableKind::Style(TableStyle::Tex)),
    (b".erl", TableKind::Style(TableStyle::Tex)),
    (b".el", TableKind::Style(TableStyle::Lisp)),
    (b".lisp", TableKind::Style(TableStyle::Lisp)),
    (b".scm", TableKind::Style(TableStyle::Lisp)),
    (b".clj", TableKind::Style(TableStyle::Lisp)),
    (b".asm", TableKind::Style(TableStyle::Semicolon)),
    (b".ini", TableKind::Style(TableStyle::Semicolon)),
    (b".ml", TableKind::Style(TableStyle::Ml)),
    (b".mli", TableKind::Style(TableStyle::Ml)),
    (b".vim", TableKind::Style(TableStyle::Vim)),
    (b".json", TableKind::Uncommentable),
    (b".png", TableKind::Uncommentable),
    (b".jpg", TableKind::Uncommentable),
    (b".jpeg", TableKind::Uncommentable),
    (b".gif", TableKind::Uncommentable),
    (b".ico", TableKind::Uncommentable),
    (b".pdf", TableKind::Uncommentable),
    (b".csv", TableKind::Uncommentable),
    (b".svg", TableKind::Uncommentable),
];

const C_BLOCK: BlockComment<'static> = BlockComment {
    opener: b"/*",
    middle: Some(b" *"),
    closer: b"*/",
    last_line: b" */",
    lead: b" * ",
};

const HTML_BLOCK: BlockComment<'static> = BlockComment {
    opener: b"<!--",
    middle: None,
    closer: b"-->",
    last_line: b"-->",
    lead: b"",
};

const ML_BLOCK: BlockComment<'static> = BlockComment {
    opener: b"(*",
    middle: Some(b" *"),
    closer: b"*)",
    last_line: b" *)",
    lead: b" * ",
};

/// All comment styles of the table.
pub const STYLES: [TableStyle; 10] = [
    TableStyle::Python,
    TableStyle::C,
    TableStyle::Css,
    TableStyle::Html,
    TableStyle::Haskell,
    TableStyle::Tex,
    TableStyle::Lisp,
    TableStyle::Semicolon,
    TableStyle::Ml,
    TableStyle::Vim,
];

const STYLE_NAMES: [&str; 10] = [
    "python",
    "c",
    "css",
    "html",
    "haskell",
    "tex",
    "lisp",
    "semicolon",
    "ml",
    "vim",
];

/// The names of all styles of the table, in the order of `STYLES`.
#[tactic(auto, unfolding(crate::specs::Styles::table_styles))]
pub fn style_names() -> &'static [&'static str]
    ensures { map (λ name. name.now) result.now ≡ map table_name table_styles }
{
    &STYLE_NAMES
}

impl TableStyle {
    /// The style.
    pub fn style(self) -> Style<'static>
        ensures { result ≡ table_style self }
    {
        Style::new(self.name(), self.comments(), self.punctuation())
    }

    /// The name of the style, as a command line gives it.
    pub fn name(self) -> &'static str
        ensures { result.now ≡ table_name self }
    {
        STYLE_NAMES[self as usize]
    }

    // The style that has a name, if one has.
    #[tactic(auto, unfolding(crate::specs::Styles::table_styles))]
    pub(crate) fn of_name(name: &str) -> Option<TableStyle>
        ensures { result ≡ find (λ style. bytes_eq (table_name style) name.now) table_styles }
    {
        find_named(&STYLES, name.as_bytes())
    }

    // The comments of the style.
    fn comments(self) -> Comments<'static>
        ensures { comments_view result ≡ table_marks self }
    {
        Comments {
            line: self.line_comment(),
            block: self.block_comment(),
            declaration: self.declaration(),
            first_lines: &[],
            front_matter: None,
        }
    }

    // How the style writes comments on single lines, if it does.
    fn line_comment(self) -> Option<LineComment<'static>>
        ensures { option_map line_view result ≡ table_line self }
    {
        let (marker, lead): (&'static [u8], &'static [u8]) = match self {
            TableStyle::Python => (b"#", b"# "),
            TableStyle::C => (b"//", b"// "),
            TableStyle::Haskell => (b"--", b"-- "),
            TableStyle::Tex => (b"%", b"% "),
            TableStyle::Lisp => (b";", b";; "),
            TableStyle::Semicolon => (b";", b"; "),
            TableStyle::Vim => (b"\"", b"\" "),
            TableStyle::Css | TableStyle::Html | TableStyle::Ml => return None,
        };
        Some(LineComment { marker, lead })
    }

    // How the style writes comments over several lines, if it does.
    fn block_comment(self) -> Option<BlockComment<'static>>
        ensures { option_map block_view result ≡ table_block self }
    {
        match self {
            TableStyle::C | TableStyle::Css => Some(C_BLOCK),
            TableStyle::Html => Some(HTML_BLOCK),
            TableStyle::Ml => Some(ML_BLOCK),
            _ => None,
        }
    }

    // The line that stays in front of comments.
    fn declaration(self) -> Declaration
        ensures { result ≡ table_declaration self }
    {
        match self {
            TableStyle::Python => Declaration::Encoding,
            TableStyle::C => Declaration::PhpTag,
            TableStyle::Html => Declaration::XmlDeclaration,
            _ => Declaration::Nothing,
        }
    }

    // The bytes that count as the style's punctuation.
    fn punctuation(self) -> &'static [u8]
        ensures { result.now ≡ table_punctuation self }
    {
        match self {
            TableStyle::Python => b"#",
            TableStyle::C | TableStyle::Css => b"/*",
            TableStyle::Html => b"<!->",
            TableStyle::Haskell => b"-",
            TableStyle::Tex => b"%",
            TableStyle::Lisp | TableStyle::Semicolon => b";",
            TableStyle::Ml => b"(*)",
            TableStyle::Vim => b"\"",
        }
    }
}

impl TableKind {
    // It, as the kind of a name.
    pub(crate) fn kind(self) -> Kind<'static>
        ensures { result ≡ table_kind self }
    {
        match self {
            TableKind::Style(style) => Kind::Style(style.style()),
            TableKind::Uncommentable => Kind::Uncommentable,
        }
    }
}

// The first of some styles that has a name.
fn find_named(mut styles: &[TableStyle], name: &[u8]) -> Option<TableStyle>
    ensures { result ≡ find (λ style. bytes_eq (table_name style) name.now) styles.entry.now }
{
    while let [style, others @ ..] = styles {
        if style.name().as_bytes() == name {
            return Some(*style);
        }
        styles = others;
    }
    None
}

/// The kind of a path's last part, by its whole name or else by its ending, where letters of either
/// case are the same.
pub fn style_of(name: &str) -> Kind<'static>
    ensures { result ≡ kind_of_name name.now }
{
    let part = last_part(name.as_bytes());
    table_kind_of(part)
        .or(table_kind_of(ending(part)))
        .unwrap_or(Kind::Unknown)
}

// The kind that the table has for a name, if it has one.
pub(crate) fn table_kind_of(name: &[u8]) -> Option<Kind<'static>>
    ensures { result ≡ lookup table_of_names name.now }
{
    match lookup(&NAMES, name) {
        None => None,
        Some(kind) => Some(kind.kind()),
    }
}

// What the table has for a name, if it has something.
#[tactic(auto, unfolding(crate::specs::Names::lookup))]
fn lookup(mut table: &[(&[u8], TableKind)], name: &[u8]) -> Option<TableKind>
    ensures { result ≡ lookup (map (λ entry. (entry.0.now, entry.1)) table.entry.now) name.now }
{
    while let [entry, others @ ..] = table {
        if same_name(entry.0, name) {
            return Some(entry.1);
        }
        table = others;
    }
    None
}

// Whether two names are the same but for the case of ASCII letters.
fn same_name(a: &[u8], b: &[u8]) -> bool
    ensures { result ≡ str_eq_ignore_ascii_case a.now b.now }
{
    a.eq_ignore_ascii_case(b)
}

/// The part of a name from its last dot on, or all of it where it has none.
pub fn ending(name: &[u8]) -> &[u8]
    ensures { result.now ≡ from_last (λ b. b == dot) name.now }
{
    match memrchr(b'.', name) {
        None => name,
        Some(dot) => &name[dot..],
    }
}
