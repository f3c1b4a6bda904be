//! The elements of a page.

ghost use Rattle.std.specs.Prelude.{◌≡◌};
ghost use Rattle.html_page.specs.Names.{tag_name};

/// An element that has a start tag and an end tag.
#[derive(Clone, Copy, Debug, PartialEq, Eq)]
pub enum Tag {
    /// `a`: a link.
    A,
    /// `b`: words of weight.
    B,
    /// `bdi`: words whose direction is their own.
    Bdi,
    /// `body`: what is shown.
    Body,
    /// `td`: a cell of a table.
    Cell,
    /// `details`: what is folded away.
    Details,
    /// `div`: a part with no meaning of its own.
    Division,
    /// `footer`: the page's end.
    Footer,
    /// `head`: what is said of the page.
    Head,
    /// `header`: the page's beginning.
    Header,
    /// `th`: the head of a row or a column.
    HeaderCell,
    /// `h1`: the page's heading.
    Heading1,
    /// `h2`: a section's heading.
    Heading2,
    /// `h3`: a heading below that.
    Heading3,
    /// `html`: all.
    Html,
    /// `li`: an item of a list.
    Item,
    /// `ul`: a list without an order.
    List,
    /// `main`: what the page is about.
    Main,
    /// `i`: a mark without words, as a part of a bar.
    Mark,
    /// `nav`: links to the page's parts.
    Navigation,
    /// `p`: a paragraph.
    Paragraph,
    /// `path`: lines of a drawing.
    Path,
    /// `polygon`: an area of a drawing.
    Polygon,
    /// `tr`: a row of a table.
    Row,
    /// `section`: a section.
    Section,
    /// `small`: a side remark.
    Small,
    /// `span`: words with no meaning of their own.
    Span,
    /// `summary`: what is shown of what is folded away.
    Summary,
    /// `svg`: a drawing.
    Svg,
    /// `table`: a table.
    Table,
    /// `tbody`: a table's rows.
    TableBody,
    /// `thead`: a table's head.
    TableHead,
    /// `dt`: what a value is of.
    Term,
    /// `dl`: values by what they are of.
    Terms,
    /// `title`: the page's name.
    Title,
    /// `dd`: a value.
    Value,
}

impl Tag {
    /// Its name in HTML or SVG.
    pub fn name(self) -> &'static str
        ensures { result.now ≡ tag_name self }
    {
        match self {
            Tag::A => "a",
            Tag::B => "b",
            Tag::Bdi => "bdi",
            Tag::Body => "body",
            Tag::Cell => "td",
            Tag::Details => "details",
            Tag::Division => "div",
            Tag::Footer => "footer",
            Tag::Head => "head",
            Tag::Header => "header",
            Tag::HeaderCell => "th",
            Tag::Heading1 => "h1",
            Tag::Heading2 => "h2",
            Tag::Heading3 => "h3",
            Tag::Html => "html",
            Tag::Item => "li",
            Tag::List => "ul",
            Tag::Main => "main",
            Tag::Mark => "i",
            Tag::Navigation => "nav",
            Tag::Paragraph => "p",
            Tag::Path => "path",
            Tag::Polygon => "polygon",
            Tag::Row => "tr",
            Tag::Section => "section",
            Tag::Small => "small",
            Tag::Span => "span",
            Tag::Summary => "summary",
            Tag::Svg => "svg",
            Tag::Table => "table",
            Tag::TableBody => "tbody",
            Tag::TableHead => "thead",
            Tag::Term => "dt",
            Tag::Terms => "dl",
            Tag::Title => "title",
            Tag::Value => "dd",
        }
    }
}
