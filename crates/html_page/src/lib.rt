//! Pages of HTML in which whatever isn't a tag is text: nothing that is put into a text or an attribute can become markup, and each
//! element that is opened is closed.
#![tactic(auto)]

mod attribute;
mod attribute_name;
mod draft;
mod laws;
mod page;
mod tag;

pub use attribute::{Attribute, class, id};
pub use attribute_name::AttributeName;
pub use laws::a_page_is_read_as_its_parts;
pub use page::HtmlPage;
pub use tag::Tag;
