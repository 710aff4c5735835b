//! The ready comments.

/// The ready comments, in byte order of their names: of each its name, and its table as it stands in a
/// file of comments.
pub static READY_COMMENTS: [(&str, &str); 30] = [
    (
        "aspx",
        "\
# Pages of ASP.NET
[comments.aspx]
open = \"<%--\"
close = \"--%>\"
",
    ),
    (
        "batch",
        "\
# Batch files, behind the line that keeps commands from being shown
[comments.batch]
line = \"REM\"
first-lines = [\"@echo off\", \"@ECHO OFF\", \"@Echo off\", \"@Echo Off\"]
",
    ),
    (
        "cabal",
        "\
# Packages of Haskell, behind the version of their language
[comments.cabal]
line = \"--\"
first-lines = [\"cabal-version:\", \"Cabal-version:\", \"Cabal-Version:\"]
",
    ),
    (
        "docker",
        "\
# Dockerfiles, behind the directives of their parser
[comments.docker]
line = \"#\"
first-lines = [\"# syntax=\", \"# escape=\", \"# check=\", \"#syntax=\", \"#escape=\", \"#check=\"]
",
    ),
    (
        "dune",
        "\
# Builds of OCaml, behind the version of their language
[comments.dune]
line = \";\"
first-lines = [\"(lang \"]
",
    ),
    (
        "emacs",
        "\
# Emacs Lisp, behind the line that names the file and may have variables
[comments.emacs]
line = \";\"
line-lead = \";; \"
first-lines = [\";;; \"]
",
    ),
    (
        "erb",
        "\
# Templates of Ruby and of JavaScript, behind front matter: no page shows the comment
[comments.erb]
open = \"<%#\"
close = \"%>\"
front-matter = [\"---\", \"---\"]
",
    ),
    (
        "fortran",
        "\
# Fortran of either form. The FSFE's reuse tool writes `c` there, which a free form isn't read with.
[comments.fortran]
line = \"!\"
",
    ),
    (
        "freemarker",
        "\
# FreeMarker, behind the directive that has to come first
[comments.freemarker]
open = \"<#--\"
close = \"-->\"
first-lines = [\"<#ftl\", \"[#ftl\"]
",
    ),
    (
        "go-template",
        "\
# Templates of Go: a comment of the template, which takes the empty line behind it along
[comments.go-template]
open = \"{{- /*\"
close = \"*/ -}}\"
",
    ),
    (
        "haml",
        "\
# Haml: a comment of the template, which no page shows, behind front matter
[comments.haml]
line = \"-#\"
front-matter = [\"---\", \"---\"]
",
    ),
    (
        "handlebars",
        "\
# Handlebars and Mustache, behind front matter
[comments.handlebars]
open = \"{{!--\"
close = \"--}}\"
front-matter = [\"---\", \"---\"]
",
    ),
    (
        "jinja",
        "\
# Jinja and its like: the last line takes the empty line behind it along
[comments.jinja]
open = \"{#\"
close = \"#}\"
last = \"-#}\"
",
    ),
    (
        "m4",
        "\
[comments.m4]
line = \"dnl\"
",
    ),
    (
        "mako",
        "\
[comments.mako]
line = \"##\"
",
    ),
    (
        "markdown",
        "\
# Markdown, behind its front matter
[comments.markdown]
open = \"<!--\"
close = \"-->\"
front-matter = [\"---\", \"---\"]
",
    ),
    (
        "mdx",
        "\
# MDX, behind its front matter
[comments.mdx]
open = \"{/*\"
close = \"*/}\"
front-matter = [\"---\", \"---\"]
",
    ),
    (
        "nunjucks",
        "\
# Nunjucks: as Jinja, behind front matter
[comments.nunjucks]
open = \"{#\"
close = \"#}\"
last = \"-#}\"
front-matter = [\"---\", \"---\"]
",
    ),
    (
        "plantuml",
        "\
[comments.plantuml]
line = \"'\"
",
    ),
    (
        "pug",
        "\
# Pug: a comment of the template, which no page shows, behind front matter
[comments.pug]
line = \"//-\"
front-matter = [\"---\", \"---\"]
",
    ),
    (
        "roff",
        "\
# Pages of the manual, behind the line that names their preprocessors
[comments.roff]
line = \".\\\\\\\"\"
first-lines = [\"'\\\\\\\" \"]
",
    ),
    (
        "rst",
        "\
[comments.rst]
line = \"..\"
",
    ),
    (
        "sass",
        "\
# Sass and SCSS, behind front matter
[comments.sass]
line = \"//\"
open = \"/*\"
middle = \" *\"
close = \"*/\"
last = \" */\"
front-matter = [\"---\", \"---\"]
",
    ),
    (
        "sed",
        "\
# Scripts of sed, behind the line that silences it
[comments.sed]
line = \"#\"
first-lines = [\"#n\"]
",
    ),
    (
        "stylesheet",
        "\
# CSS, behind the rule that names its encoding, or front matter
[comments.stylesheet]
open = \"/*\"
middle = \" *\"
close = \"*/\"
last = \" */\"
first-lines = [\"@charset \"]
front-matter = [\"---\", \"---\"]
",
    ),
    (
        "texinfo",
        "\
# Texinfo, behind the line that reads its macros
[comments.texinfo]
line = \"@c\"
first-lines = [\"\\\\input texinfo\"]
",
    ),
    (
        "velocity",
        "\
[comments.velocity]
open = \"#*\"
close = \"*#\"
",
    ),
    (
        "web-page",
        "\
# Web pages, behind the XML declaration and front matter
[comments.web-page]
open = \"<!--\"
close = \"-->\"
first-lines = [\"<?xml\"]
front-matter = [\"---\", \"---\"]
",
    ),
    (
        "xquery",
        "\
[comments.xquery]
open = \"(:\"
close = \":)\"
",
    ),
    (
        "yaml",
        "\
# YAML, behind the line that cloud-init reads
[comments.yaml]
line = \"#\"
first-lines = [\"#cloud-config\"]
",
    ),
];
