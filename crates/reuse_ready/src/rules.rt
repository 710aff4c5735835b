//! The ready rules: which files get a style by a beginning of their names, by their first lines, or
//! by both.

/// Beginnings of the names of files that are for one purpose each, with their style: behind one
/// stands the purpose.
pub static READY_FRONTS: [(&str, &str); 2] = [
    ("Dockerfile.", "docker"),
    ("Containerfile.", "docker"),
];

/// Patterns of the first lines of scripts, by the interpreter that they name, each with its style.
pub static READY_RULES: [(&str, &str); 12] = [
    ("#!*python*", "python"),
    ("#!*sh", "python"),
    ("#!*sh *", "python"),
    ("#!*perl*", "python"),
    ("#!*ruby*", "python"),
    ("#!*awk*", "python"),
    ("#!*make*", "python"),
    ("#!*Rscript*", "python"),
    ("#!*julia*", "python"),
    ("#!*lua*", "haskell"),
    ("#!*node*", "c"),
    ("#!*deno*", "c"),
];

/// Endings of names whose files may begin with markup, each with the rules for them as they stand in
/// a file of comments. By these a file that begins so gets another style than by its name, or a
/// neighbour.
pub static READY_NAME_RULES: [(&str, &str); 2] = [
    (
        ".php",
        "\
# PHP shows what stands outside of its tags, comments too. So a file gets a neighbour unless it
# begins with a tag that isn't closed on its line, or is a script.
[[rules]]
name = \"*.php\"
first-line = \"<?php*?>*\"
style = \"uncommentable\"
over-table = true

[[rules]]
name = \"*.php\"
first-line = \"<?php*\"
style = \"c\"
over-table = true

[[rules]]
name = \"*.php\"
first-line = \"#!*\"
style = \"c\"
over-table = true

[[rules]]
name = \"*.php\"
style = \"uncommentable\"
over-table = true
",
    ),
    (
        ".ts",
        "\
# Translations of Qt, which are XML
[[rules]]
name = \"*.ts\"
first-line = \"<*\"
style = \"html\"
over-table = true
",
    ),
];
