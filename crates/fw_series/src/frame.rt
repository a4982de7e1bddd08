//! The frame of a page: what stands before and behind its text, and how it looks. A page is one file that needs nothing else.
ghost use Rattle.std.specs.Prelude.{◌≡◌, ◌++◌, OnOk, codes};
ghost use Rattle.fw_series.specs.Escapes.{on_page};

use crate::escapes::push_shown;
use std::alloc::{AllocError, Global};

/// What stands before the title.
const HEAD: &str = "<!DOCTYPE html>
<html lang=\"en\">
<head>
<meta charset=\"utf-8\">
<meta name=\"viewport\" content=\"width=device-width, initial-scale=1\">
<title>";

/// What follows the title: how a page looks, and where its text begins.
const STYLE: &str = "</title>
<style>
body{margin:0;background:#fff;color:#1d2733;font:15px/1.5 system-ui,sans-serif}
main{max-width:68rem;margin:0 auto;padding:1.5rem 1rem 3rem}
h1{margin:0;font-size:1.4rem;line-height:1.25;overflow-wrap:anywhere}
h2{margin:2rem 0 .5rem;font-size:1.05rem}
p{margin:.25rem 0}
.quiet,.axis,.ends{color:#5b6877;font-size:.87rem}
.axis{margin-top:1rem;font-variant-numeric:tabular-nums}
.ends{display:flex;justify-content:space-between}
.legend{display:flex;flex-wrap:wrap;gap:.2rem 1.1rem;margin:1rem 0 0;padding:0;list-style:none}
.legend li{display:flex;align-items:center;gap:.4rem;min-width:0;overflow-wrap:anywhere}
.legend i{flex:none;width:.8rem;height:.8rem;border-radius:2px}
svg{display:block;width:100%;height:16rem}
.zero{fill:none;stroke:#8592a3;stroke-width:1;vector-effect:non-scaling-stroke}
.bars{display:grid;grid-template-columns:fit-content(45%) minmax(4rem,1fr) auto;gap:.35rem .8rem;align-items:center;margin-top:1rem}
.bars>span{min-width:0;overflow-wrap:anywhere}
.bar i{display:block;height:1.1rem;min-width:1px;border-radius:2px}
.number{text-align:right;font-variant-numeric:tabular-nums}
.wide{overflow-x:auto}
table{width:100%;border-collapse:collapse;font-variant-numeric:tabular-nums}
th,td{padding:.3rem .6rem;border-bottom:1px solid #e3e8ee;text-align:right;white-space:nowrap}
th{font-weight:600}
tbody th{font-weight:400}
th:first-child,td:first-child{padding-left:0}
th:first-child,td:first-child,.text{min-width:8rem;text-align:left;white-space:normal;overflow-wrap:anywhere}
tfoot th,tfoot td{border-top:2px solid #8592a3;border-bottom:0;font-weight:600}
.c0{fill:#4e79a7;background:#4e79a7}
.c1{fill:#f28e2b;background:#f28e2b}
.c2{fill:#59a14f;background:#59a14f}
.c3{fill:#e15759;background:#e15759}
.c4{fill:#76b7b2;background:#76b7b2}
.c5{fill:#edc948;background:#edc948}
.c6{fill:#b07aa1;background:#b07aa1}
.c7{fill:#9c755f;background:#9c755f}
.cx{fill:#b8bfc8;background:#b8bfc8}
</style>
</head>
<body>
<main>
";

/// The end of a page.
const END: &str = "</main>
</body>
</html>
";

/// Adds the front of a page up to its heading, which is a text of our own and behind it the text of someone else, as is its title. The one error is
/// that memory ran out.
pub fn begin_page(
    alloc: Global,
    page: &mut Vec<u8>,
    front: &str,
    name: &str,
) -> Result<(), AllocError>
    ensures { OnOk result (page.new.items ≡ page.old.items ++ HEAD.now ++ front.now
        ++ on_page name.now ++ STYLE.now ++ codes "<h1>" ++ front.now ++ on_page name.now
        ++ codes "</h1>\n") }
{
    push_markup(page, HEAD)?;
    push_markup(page, front)?;
    push_shown(alloc, page, name)?;
    push_markup(page, STYLE)?;
    push_markup(page, "<h1>")?;
    push_markup(page, front)?;
    push_shown(alloc, page, name)?;
    push_markup(page, "</h1>\n")
}

/// Adds the end of a page. The one error is that memory ran out.
pub fn end_page(page: &mut Vec<u8>) -> Result<(), AllocError>
    ensures { OnOk result (page.new.items ≡ page.old.items ++ END.now) }
{
    push_markup(page, END)
}

/// Adds a text of our own to a page as it is. The one error is that memory ran out.
pub fn push_markup(page: &mut Vec<u8>, text: &str) -> Result<(), AllocError>
    ensures { OnOk result (page.new.items ≡ page.old.items ++ text.now) }
{
    page.extend_from_slice(text.as_bytes())
}
