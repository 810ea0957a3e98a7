// The laws of texts have no body, and may be called.
use rast_lex::pieces_law;
use rast_print::{one_text_law, parsing_law, reading_law};

#[test]
fn laws_of_texts_are_called() {
    pieces_law();
    reading_law();
    parsing_law();
    one_text_law();
}
