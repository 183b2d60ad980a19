//! What holds of products, checksums and corrections, whatever the matrix and the words.

ghost use Rattle.rh_sparse.specs.Laws.{OneAlteredWordIsRestored, OneAlteredWordOfAProductIsRestored, ProductsAgree, RestoredIsRelation, RestoredWordsAreUnique};

/// The product of a matrix and a list of words agrees with both checksums of the matrix.
pub fn products_agree()
    ensures { ProductsAgree }
{}

/// Words that agree with both checksums, altered in exactly one place, are restored by their own differences.
pub fn one_altered_word_is_restored()
    ensures { OneAlteredWordIsRestored }
{}

/// A product altered in exactly one place is restored by its own differences.
pub fn one_altered_word_of_a_product_is_restored()
    ensures { OneAlteredWordOfAProductIsRestored }
{}

/// Two differences name one row at most, and leave one list of words: the restored words as a function and as a relation are one.
pub fn restored_words_are_unique()
    ensures relation { RestoredIsRelation }
    ensures unique { RestoredWordsAreUnique }
{}
