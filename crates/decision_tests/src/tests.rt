mod claimed;
mod completing;
mod histories;
mod matching;
mod searches;
mod small_histories;
